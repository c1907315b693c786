// Reading the records of a log.
ghost use Rattle.std.specs.Prelude.{◌≡◌, take, None};
ghost use Rattle.logs.specs.Logs.{names as of_key, named as one_of_key, tells as told_by, told, lasts};

use crate::entry::Entry;
use stores::store::Key;

pub(crate) fn names<K: Key, V>(e: &Entry<K, V>, k: &K) -> bool
    ensures { result ≡ of_key K.Key.alike k.now e.now }
{
    e.key().same(k)
}

// What one record makes of what was told of the key before.
pub(crate) fn tells<K: Key, V: Copy>(e: &Entry<K, V>, k: &K, before: Option<V>) -> Option<V>
    ensures { result ≡ told_by K.Key.alike k.now before e.now }
{
    if names(e, k) { e.value() } else { before }
}

// The value of a key.
pub(crate) fn latest<K: Key, V: Copy>(entries: &[Entry<K, V>], used: usize, k: &K) -> Option<V>
    ensures { result ≡ told K.Key.alike k.now None (take used entries.now) }
{
    entries[..used.min(entries.len())]
        .iter()
        .fold(None, |known, e| tells(e, k, known))
}

pub(crate) fn named<K: Key, V>(entries: &[Entry<K, V>], k: &K) -> bool
    ensures { result ≡ one_of_key K.Key.alike k.now entries.now }
{
    entries.iter().any(|e| names(e, k))
}

// Whether e is the last put of its key, with the records `later` after it.
pub(crate) fn stays<K: Key, V>(e: &Entry<K, V>, later: &[Entry<K, V>]) -> bool
    ensures { result ≡ lasts K.Key.alike e.now later.now }
{
    match e {
        Entry::Put(k, _) => !named(later, k),
        Entry::Dropped(_) => false,
    }
}
