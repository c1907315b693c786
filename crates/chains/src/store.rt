// The chain table as a store.
ghost use Rattle.chains.specs.Tables.{table, Sound, pairs as table_pairs, room};

use crate::Chain;
use crate::calls::{drop_in, get_in, put_in};
use stores::fault::StoreFault;
use stores::store::{Key, Store};

impl<'a, K: Key + Copy, V: Copy> Store<K, V> for Chain<'a, K, V> {
    ghost pairs = { λ s. table_pairs s.nodes.now };

    ghost capacity = { λ s. room s.nodes.now };

    ghost sound = { λ s. Sound K.Key.alike K.Key.bucket (table s.nodes.now) };

    fn put(&mut self, k: K, v: V) -> Result<(), StoreFault> {
        put_in(self.nodes, k, v)
    }

    fn get(&self, k: &K, place: &mut V) -> bool {
        get_in(self.nodes, k, place)
    }

    fn drop_pair(&mut self, k: &K) -> bool {
        drop_in(self.nodes, k)
    }
}
