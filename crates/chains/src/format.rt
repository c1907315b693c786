// Making a lent list a chain table.
ghost use Rattle.std.specs.Prelude.{◌≡◌, ◌<◌, ◌≤◌, [], length, if◌then◌else◌, Ok, Err};
ghost use Rattle.chains.specs.Chains.{laid};
ghost use Rattle.chains.specs.Tables.{table, fits_table, fresh_table, Sound, pairs};

use crate::FREE;
use crate::node::Node;
use stores::fault::StoreFault;
use stores::store::Key;

// The next index of record i of n where no record has a pair.
fn laid_next(n: usize, i: usize) -> u16
    requires { (i < n) × (n ≤ 65536) }
    ensures { result ≡ laid n i }
{
    if i >= FREE && i + 1 < n {
        (i + 1) as u16
    } else {
        0
    }
}

// Makes a list a table with no pair; another length is refused, and the list is left.
pub fn format<K: Key, V>(nodes: &mut [Node<K, V>]) -> Result<(), StoreFault>
    ensures answer { result ≡ (if fits_table (length nodes.old) then Ok tt else Err StoreFault.Length) }
    ensures after { table nodes.new ≡ (if fits_table (length nodes.old) then fresh_table (table nodes.old) else table nodes.old) }
    ensures same { result ≡ Err StoreFault.Length → nodes.new ≡ nodes.old }
    ensures size { length nodes.new ≡ length nodes.old }
    ensures sound { result ≡ Ok tt → Sound K.Key.alike K.Key.bucket (table nodes.new) }
    ensures empty { result ≡ Ok tt → pairs nodes.new ≡ [] }
{
    let n = nodes.len();
    if !(18..=65536).contains(&n) {
        return Err(StoreFault::Length);
    }
    for (i, node) in nodes.iter_mut().enumerate() {
        node.next = laid_next(n, i);
    }
    Ok(())
}
