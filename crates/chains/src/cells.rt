// Reading and writing one record of the chain table, on any list and at any index.
ghost use Rattle.std.specs.Prelude.{◌≡◌, false, if◌then◌else◌, ◌==◌, is_some, slice_index, slice_index_or, slice_set};
ghost use Rattle.std.specs.Option.{unwrap_or};
ghost use Rattle.std.specs.List.{slice_get};
ghost use Rattle.chains.specs.Chains.{unlink as unlinked, link as linked};
ghost use Rattle.chains.specs.Tables.{table, marks};

use crate::node::Node;
use stores::store::Key;

pub(crate) fn next_of<K, V>(nodes: &[Node<K, V>], at: usize) -> u16
    ensures { result ≡ slice_index (table nodes.now).links at }
{
    nodes.get(at).map_or(0, |node| node.next)
}

// The record after `at`, if there is one: index 0 ends each chain.
pub(crate) fn after<K, V>(nodes: &[Node<K, V>], at: usize) -> Option<u16>
    ensures { result ≡ (if slice_index (table nodes.now).links at == 0 then None else Some (slice_index (table nodes.now).links at)) }
{
    match next_of(nodes, at) {
        0 => None,
        next => Some(next),
    }
}

pub(crate) fn has_key<K: Key, V>(nodes: &[Node<K, V>], at: usize, k: &K) -> bool
    ensures { result ≡ slice_index_or (marks K.Key.alike k.now (table nodes.now).keys) at false }
{
    nodes.get(at).is_some_and(|node| node.key.same(k))
}

// The value of a record, if there is that record.
pub(crate) fn value_of<K, V: Copy>(nodes: &[Node<K, V>], at: usize) -> Option<V>
    ensures { result ≡ slice_get (table nodes.now).values at }
{
    nodes.get(at).map(|node| node.value)
}

// These three differ in the field that they write: one function over a closure that writes would want the closure's clauses in its contract. They write by index, since of a slice's `get_mut` a proof learns the length and no element.
#[tactic(auto, using(crate::proofs::Columns::writes))]
pub(crate) fn set_next<K, V>(nodes: &mut [Node<K, V>], at: usize, to: u16)
    ensures links { (table nodes.new).links ≡ slice_set (table nodes.old).links at to }
    ensures keys { (table nodes.new).keys ≡ (table nodes.old).keys }
    ensures values { (table nodes.new).values ≡ (table nodes.old).values }
{
    if at < nodes.len() {
        nodes[at].next = to;
    }
}

#[tactic(auto, using(crate::proofs::Columns::writes))]
pub(crate) fn set_key<K: Drop, V>(nodes: &mut [Node<K, V>], at: usize, k: K)
    ensures links { (table nodes.new).links ≡ (table nodes.old).links }
    ensures keys { (table nodes.new).keys ≡ slice_set (table nodes.old).keys at k }
    ensures values { (table nodes.new).values ≡ (table nodes.old).values }
{
    if at < nodes.len() {
        nodes[at].key = k;
    }
}

#[tactic(auto, using(crate::proofs::Columns::writes))]
pub(crate) fn set_value<K, V: Drop>(nodes: &mut [Node<K, V>], at: usize, v: V)
    ensures links { (table nodes.new).links ≡ (table nodes.old).links }
    ensures keys { (table nodes.new).keys ≡ (table nodes.old).keys }
    ensures values { (table nodes.new).values ≡ slice_set (table nodes.old).values at v }
{
    if at < nodes.len() {
        nodes[at].value = v;
    }
}

// Takes the record after `before` out of its chain.
pub(crate) fn unlink<K, V>(nodes: &mut [Node<K, V>], before: usize)
    ensures links { (table nodes.new).links ≡ unlinked (table nodes.old).links before }
    ensures keys { (table nodes.new).keys ≡ (table nodes.old).keys }
    ensures values { (table nodes.new).values ≡ (table nodes.old).values }
{
    let at = next_of(nodes, before) as usize;
    let next = next_of(nodes, at);
    set_next(nodes, before, next);
}

// Puts the record x at the front of the chain of `head`.
pub(crate) fn link<K, V>(nodes: &mut [Node<K, V>], x: u16, head: usize)
    ensures links { (table nodes.new).links ≡ linked (table nodes.old).links x head }
    ensures keys { (table nodes.new).keys ≡ (table nodes.old).keys }
    ensures values { (table nodes.new).values ≡ (table nodes.old).values }
{
    let front = next_of(nodes, head);
    set_next(nodes, x as usize, front);
    set_next(nodes, head, x);
}
