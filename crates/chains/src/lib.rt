// The chain table: a store over a lent list of records. Records 0 to 15 head the chains of the 16 hashes, record 16 the free chain.
#![tactic(auto)]

ghost use Rattle.std.specs.Prelude.{◌≡◌};

pub mod calls;
mod cells;
pub mod format;
pub mod node;
pub mod store;
mod walk;

use crate::node::Node;

// The head of the free chain.
const FREE: usize = 16;

#[derive(Drop)]
pub struct Chain<'a, K, V> {
    pub nodes: &'a mut [Node<K, V>],
}

impl<'a, K, V> Chain<'a, K, V> {
    // The table over records that are formatted already.
    pub fn over(nodes: &'a mut [Node<K, V>]) -> Chain<'a, K, V>
        ensures { result.nodes.now ≡ nodes.old }
    {
        Chain { nodes }
    }
}
