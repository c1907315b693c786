// Tallies: counts of refusals, in any store.
ghost use Rattle.std.specs.Prelude.{◌≡◌, true, false, length, is_some, if◌then◌else◌, Some, Ok, Err};
ghost use Rattle.stores.specs.Pairs.{look, turned, full, more};
ghost use Rattle.stores.specs.Tallies.{same_tally, tally_hash, raised};
ghost use Rattle.std.proofs.Common.{rules};

use crate::fault::StoreFault;
use crate::store::{Key, Store};

// A refusal's number, under which its tally lies by the rules.
#[derive(Clone, Copy, PartialEq, Eq, Debug)]
pub struct TallyKey {
    pub number: u8,
}

impl Key for TallyKey {
    ghost alike = { same_tally };

    ghost bucket = { tally_hash };

    ghost reflexive = { Prim.search rules };

    ghost symmetric = { Prim.search rules };

    ghost transitive = { Prim.search rules };

    ghost small = { Prim.search rules };

    ghost shared = { Prim.search rules };

    fn same(&self, other: &TallyKey) -> bool {
        self == other
    }

    fn hash(&self) -> usize {
        (self.number % 16) as usize
    }
}

// Raises the tally of a key by one; a key with none begins at 1.
pub fn raise<K: Key + Copy, S: Store<K, u64>>(store: &mut S, k: K) -> Result<u64, StoreFault>
    ensures sound { S.Store.sound store.old → S.Store.sound store.new }
    ensures capacity { S.Store.capacity store.new ≡ S.Store.capacity store.old }
    ensures answer { S.Store.sound store.old → result ≡ (if full K.Key.alike (S.Store.pairs store.old) (S.Store.capacity store.old) k then Err StoreFault.Full else Ok (raised (look K.Key.alike (S.Store.pairs store.old) k))) }
    ensures refusal { S.Store.sound store.old → full K.Key.alike (S.Store.pairs store.old) (S.Store.capacity store.old) k ≡ true → store.new ≡ store.old }
    ensures found { S.Store.sound store.old → full K.Key.alike (S.Store.pairs store.old) (S.Store.capacity store.old) k ≡ false → (q : K) → look K.Key.alike (S.Store.pairs store.new) q ≡ turned K.Key.alike (look K.Key.alike (S.Store.pairs store.old)) k (Some (raised (look K.Key.alike (S.Store.pairs store.old) k))) q }
    ensures many { S.Store.sound store.old → full K.Key.alike (S.Store.pairs store.old) (S.Store.capacity store.old) k ≡ false → length (S.Store.pairs store.new) ≡ more (is_some (look K.Key.alike (S.Store.pairs store.old) k)) (length (S.Store.pairs store.old)) }
{
    let mut count = 0;
    store.get(&k, &mut count);
    let next = count.saturating_add(1);
    store.put(k, next)?;
    Ok(next)
}
