// The calls of the log over any lent list of records. List and fill come apart: by the rules a log's methods hand the list to functions.
ghost use Rattle.std.specs.Prelude.{◌≡◌, is_some, if◌then◌else◌, Ok, Err};
ghost use Rattle.std.specs.Option.{unwrap_or};
ghost use Rattle.logs.specs.Logs.{book, value_of, put_refuses, put_book, drop_book};

use crate::entry::Entry;
use crate::fill::Fill;
use crate::read::latest;
use crate::write::append;
use stores::fault::StoreFault;
use stores::store::Key;

pub fn get_in<K: Key, V: Copy>(entries: &[Entry<K, V>], fill: &Fill, k: &K, place: &mut V) -> bool
    ensures answer { result ≡ is_some (value_of K.Key.alike (book entries.now fill.now) k.now) }
    ensures place { place.new ≡ unwrap_or (value_of K.Key.alike (book entries.now fill.now) k.now) place.old }
{
    let Some(v) = latest(entries, fill.used, k) else {
        return false;
    };
    *place = v;
    true
}

pub fn put_in<K: Key + Copy, V: Copy>(
    entries: &mut [Entry<K, V>],
    fill: &mut Fill,
    k: K,
    v: V,
) -> Result<(), StoreFault>
    ensures answer { result ≡ (if put_refuses K.Key.alike (book entries.old fill.old) k then Err StoreFault.Full else Ok tt) }
    ensures after { book entries.new fill.new ≡ put_book K.Key.alike (book entries.old fill.old) k v }
{
    if latest(entries, fill.used, &k).is_none() {
        if fill.count >= entries.len().saturating_sub(1) {
            return Err(StoreFault::Full);
        }
        fill.count += 1;
    }
    append(entries, fill, Entry::Put(k, v));
    Ok(())
}

pub fn drop_in<K: Key + Copy, V: Copy>(entries: &mut [Entry<K, V>], fill: &mut Fill, k: &K) -> bool
    ensures answer { result ≡ is_some (value_of K.Key.alike (book entries.old fill.old) k.now) }
    ensures after { book entries.new fill.new ≡ drop_book K.Key.alike (book entries.old fill.old) k.now }
{
    if latest(entries, fill.used, k).is_none() {
        return false;
    }
    fill.count = fill.count.saturating_sub(1);
    append(entries, fill, Entry::Dropped(*k));
    true
}
