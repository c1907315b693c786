// The calls of the chain table over any lent list of records.
ghost use Rattle.std.specs.Prelude.{◌≡◌, not, is_some, ◌==◌};
ghost use Rattle.std.specs.Option.{unwrap_or};
ghost use Rattle.chains.specs.Tables.{table, spot, found, put_table, put_answer, drop_table};

use crate::FREE;
use crate::cells::{after, link, set_key, set_value, unlink, value_of};
use crate::node::Node;
use crate::walk::walk;
use stores::fault::StoreFault;
use stores::store::Key;

#[tactic(auto, using(crate::proofs::Columns::held_is))]
pub fn get_in<K: Key, V: Copy>(nodes: &[Node<K, V>], k: &K, place: &mut V) -> bool
    ensures answer { result ≡ is_some (found K.Key.alike K.Key.bucket (table nodes.now) k.now) }
    ensures place { place.new ≡ unwrap_or (found K.Key.alike K.Key.bucket (table nodes.now) k.now) place.old }
{
    let Some(spot) = walk(nodes, k) else {
        return false;
    };
    let Some(value) = value_of(nodes, spot.at as usize) else {
        return false;
    };
    *place = value;
    true
}

pub fn put_in<K: Key + Copy, V: Copy>(
    nodes: &mut [Node<K, V>],
    k: K,
    v: V,
) -> Result<(), StoreFault>
    ensures answer { result ≡ put_answer K.Key.alike K.Key.bucket (table nodes.old) k }
    ensures after { table nodes.new ≡ put_table K.Key.alike K.Key.bucket (table nodes.old) k v }
{
    if let Some(spot) = walk(nodes, &k) {
        set_value(nodes, spot.at as usize, v);
        return Ok(());
    }
    let x = after(nodes, FREE).ok_or(StoreFault::Full)?;
    let head = k.hash();
    unlink(nodes, FREE);
    set_key(nodes, x as usize, k);
    set_value(nodes, x as usize, v);
    link(nodes, x, head);
    Ok(())
}

pub fn drop_in<K: Key, V>(nodes: &mut [Node<K, V>], k: &K) -> bool
    ensures answer { result ≡ not (spot K.Key.alike K.Key.bucket (table nodes.old) k.now == 0) }
    ensures after { table nodes.new ≡ drop_table K.Key.alike K.Key.bucket (table nodes.old) k.now }
{
    let Some(spot) = walk(nodes, k) else {
        return false;
    };
    unlink(nodes, spot.before);
    link(nodes, spot.at, FREE);
    true
}
