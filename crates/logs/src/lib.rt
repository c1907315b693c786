// The log: a store over a lent list of records, each a put or a drop; a key's last record decides.
#![tactic(auto)]

ghost use Rattle.std.specs.Prelude.{◌≡◌, true, [], length, if◌then◌else◌, Ok, Err};
ghost use Rattle.logs.specs.Logs.{book, fits_log, Sound, pairs};

pub mod calls;
pub mod entry;
pub mod fill;
mod read;
pub mod store;
mod write;

use crate::entry::Entry;
use crate::fill::Fill;
use stores::fault::StoreFault;
use stores::store::Key;

#[derive(Drop)]
pub struct Log<'a, K, V> {
    pub entries: &'a mut [Entry<K, V>],
    pub fill: Fill,
}

// Whether a list has a length that a log may have.
pub fn check_length<K, V>(entries: &[Entry<K, V>]) -> Result<(), StoreFault>
    ensures { result ≡ (if fits_log (length entries.now) then Ok tt else Err StoreFault.Length) }
{
    let n = entries.len();
    if (2..=65536).contains(&n) {
        Ok(())
    } else {
        Err(StoreFault::Length)
    }
}

impl<'a, K: Key, V> Log<'a, K, V> {
    // The log with no record in use; the list stays as it is.
    pub fn over(entries: &'a mut [Entry<K, V>]) -> Log<'a, K, V>
        ensures entries { result.entries.now ≡ entries.old }
        ensures fill { result.fill ≡ record { used = 0; count = 0 } }
        ensures sound { fits_log (length entries.old) ≡ true → Sound K.Key.alike (book result.entries.now result.fill) }
        ensures empty { pairs K.Key.alike (book result.entries.now result.fill) ≡ [] }
    {
        Log {
            entries,
            fill: Fill { used: 0, count: 0 },
        }
    }
}
