// Why a store refuses.
ghost use Rattle.std.specs.Prelude.{◌≡◌};
ghost use Rattle.stores.specs.Faults.{store_refusal};

use names::fault::{Layer, Refusal};

// A new key where the pairs are as many as the capacity; a lent list of another length than the store takes.
#[derive(Clone, Copy, PartialEq, Eq, Debug)]
pub enum StoreFault {
    Full,
    Length,
}

impl From<StoreFault> for Refusal {
    ghost from_gives = { λ x y. y ≡ store_refusal x };

    fn from(fault: StoreFault) -> Refusal {
        let number = match fault {
            StoreFault::Full => 24,
            StoreFault::Length => 25,
        };
        Refusal {
            number,
            layer: Layer::Store,
            place: 0,
        }
    }
}
