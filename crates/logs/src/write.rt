// Writing records of a log.
ghost use Rattle.std.specs.Prelude.{◌≡◌, suc, ◌≤◌, ◌++◌, length, take, drop, if◌then◌else◌, nat_lt, slice_set};
ghost use Rattle.logs.specs.Logs.{book, appended, live};

use crate::entry::Entry;
use crate::fill::Fill;
use crate::read::stays;
use stores::store::Key;

// Moves the last put of each key that has a pair to the front, in their order; answers how many they are.
pub(crate) fn squeeze<K: Key + Copy, V: Copy>(entries: &mut [Entry<K, V>]) -> usize
    ensures many { result ≡ length (live K.Key.alike entries.old) }
    ensures after { entries.new ≡ live K.Key.alike entries.old ++ drop (length (live K.Key.alike entries.old)) entries.old }
{
    // It writes into the list that it reads, so both go by index.
    let mut w = 0;
    for i in 0..entries.len() {
        let e = entries[i];
        // The check covers no `&entries[i + 1..]` of a list that is lent to be written.
        let (_, later) = entries.split_at(i + 1);
        if stays(&e, later) {
            entries[w] = e;
            w += 1;
        }
    }
    w
}

// Writes a record at a place, if there is one; answers where the records in use end then.
pub(crate) fn note<K: Drop, V: Drop>(
    entries: &mut [Entry<K, V>],
    at: usize,
    e: Entry<K, V>,
) -> usize
    ensures end { result ≡ (if nat_lt at (length entries.old) then suc at else at) }
    ensures after { entries.new ≡ slice_set entries.old at e }
{
    // Of a slice's `get_mut` a proof learns the length and no element.
    if at < entries.len() {
        entries[at] = e;
        at + 1
    } else {
        at
    }
}

// Writes a record after those in use; a full log is squeezed first.
pub(crate) fn append<K: Key + Copy, V: Copy>(
    entries: &mut [Entry<K, V>],
    fill: &mut Fill,
    e: Entry<K, V>,
)
    ensures { book entries.new fill.new ≡ appended K.Key.alike e (book entries.old fill.old) }
{
    if fill.used >= entries.len() {
        fill.used = squeeze(entries);
    }
    fill.used = note(entries, fill.used, e);
}
