// A record of the log.
ghost use Rattle.std.specs.Prelude.{◌≡◌};
ghost use Rattle.logs.specs.Logs.{key_of, value_in};

// By the rules a record is a put or a drop, so this is no pair of a key and an Option.
#[derive(Clone, Copy, PartialEq, Eq, Debug)]
pub enum Entry<K, V> {
    Put(K, V),
    Dropped(K),
}

impl<K, V> Entry<K, V> {
    pub(crate) fn key(&self) -> &K
        ensures { result.now ≡ key_of self.now }
    {
        match self {
            Entry::Put(k, _) | Entry::Dropped(k) => k,
        }
    }

    // The value that the record gives its key.
    pub(crate) fn value(&self) -> Option<V>
    where
        V: Copy,
        ensures { result ≡ value_in self.now }
    {
        match self {
            Entry::Put(_, v) => Some(*v),
            Entry::Dropped(_) => None,
        }
    }
}
