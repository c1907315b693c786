// The log as a store.
ghost use Rattle.logs.specs.Logs.{book, Sound, pairs as book_pairs, room};

use crate::Log;
use crate::calls::{drop_in, get_in, put_in};
use stores::fault::StoreFault;
use stores::store::{Key, Store};

impl<'a, K: Key + Copy, V: Copy> Store<K, V> for Log<'a, K, V> {
    ghost pairs = { λ s. book_pairs K.Key.alike (book s.entries.now s.fill) };

    ghost capacity = { λ s. room (book s.entries.now s.fill) };

    ghost sound = { λ s. Sound K.Key.alike (book s.entries.now s.fill) };

    fn put(&mut self, k: K, v: V) -> Result<(), StoreFault> {
        put_in(self.entries, &mut self.fill, k, v)
    }

    fn get(&self, k: &K, place: &mut V) -> bool {
        get_in(self.entries, &self.fill, k, place)
    }

    fn drop_pair(&mut self, k: &K) -> bool {
        drop_in(self.entries, &mut self.fill, k)
    }
}
