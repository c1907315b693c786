// The walk along the chain of a key's hash: the one place where chains are read record by record.
ghost use Rattle.std.specs.Prelude.{◌≡◌, if◌then◌else◌, ◌==◌};
ghost use Rattle.chains.specs.Tables.{table, spot, spot_before};

use crate::cells::{after, has_key};
use crate::node::Node;
use stores::store::Key;

// The record of a key, and the record or head that stands before it.
#[derive(Clone, Copy)]
pub(crate) struct Spot {
    pub(crate) before: usize,
    pub(crate) at: u16,
}

pub(crate) fn walk<K: Key, V>(nodes: &[Node<K, V>], k: &K) -> Option<Spot>
    ensures { result ≡ (if spot K.Key.alike K.Key.bucket (table nodes.now) k.now == 0 then None else Some (record { before = spot_before K.Key.alike K.Key.bucket (table nodes.now) k.now; at = spot K.Key.alike K.Key.bucket (table nodes.now) k.now })) }
{
    let mut before = k.hash();
    // No chain has more records than there are, so this ends on any list.
    for _ in nodes {
        let at = after(nodes, before)?;
        if has_key(nodes, at as usize, k) {
            return Some(Spot { before, at });
        }
        before = at as usize;
    }
    None
}
