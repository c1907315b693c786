// Elements, and the keys of texts.
ghost use Rattle.std.specs.Prelude.{◌≡◌};
ghost use Rattle.stores.specs.Texts.{index, same_key, key_hash};
ghost use Rattle.std.proofs.Common.{rules};

use crate::store::Key;

// An element's index is part of a text's hash, so the rules fix it.
#[derive(Clone, Copy, PartialEq, Eq, Debug)]
pub enum Element {
    Who = 1,
    What,
    When,
    Where,
}

impl Element {
    pub fn index(self) -> u64
        ensures { result ≡ index self }
    {
        self as u64
    }
}

#[derive(Clone, Copy, PartialEq, Eq, Debug)]
pub struct TextKey {
    pub number: u64,
    pub element: Element,
}

impl Key for TextKey {
    ghost alike = { same_key };

    ghost bucket = { key_hash };

    ghost reflexive = { Prim.search rules };

    ghost symmetric = { Prim.search rules };

    ghost transitive = { Prim.search rules };

    ghost small = { Prim.search rules };

    ghost shared = { Prim.search rules };

    fn same(&self, other: &TextKey) -> bool {
        self == other
    }

    fn hash(&self) -> usize {
        ((self.number % 16 + self.element.index()) % 16) as usize
    }
}
