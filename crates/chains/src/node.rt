// A record of the chain table, in the form that the rules fix: the next record by its index, zero at a chain's end.
#[derive(Clone, Copy, PartialEq, Eq, Debug)]
pub struct Node<K, V> {
    pub key: K,
    pub value: V,
    pub next: u16,
}
