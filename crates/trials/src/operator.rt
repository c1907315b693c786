// A key kind that the stores do not know: an operator's code of three letters.
ghost use Rattle.std.specs.Prelude.{◌+◌, ◌%◌, ◌&&◌, ◌==◌};
ghost use Rattle.std.proofs.Common.{rules};

use stores::store::Key;

// An operator's code of three capitals.
#[derive(Clone, Copy, PartialEq, Eq, Debug)]
pub struct OperatorKey {
    pub first: u8,
    pub second: u8,
    pub third: u8,
}

impl Key for OperatorKey {
    ghost alike = { λ x y. (x.first == y.first) && (x.second == y.second && x.third == y.third) };

    ghost bucket = { λ x. (x.first + x.second + x.third) % 16 };

    ghost reflexive = { Prim.search rules };

    ghost symmetric = { Prim.search rules };

    ghost transitive = { Prim.search rules };

    ghost small = { Prim.search rules };

    ghost shared = { Prim.search rules };

    fn same(&self, other: &OperatorKey) -> bool {
        self == other
    }

    fn hash(&self) -> usize {
        (self.first as usize + self.second as usize + self.third as usize) % 16
    }
}
