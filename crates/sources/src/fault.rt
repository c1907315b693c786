// Why a source refuses.
ghost use Rattle.std.specs.Prelude.{◌≡◌};
ghost use Rattle.sources.specs.Faults.{source_refusal};

use names::fault::{Layer, Refusal};

// A name that is none of the source's, or the first number of a roll that no roll may have, by its index.
#[derive(Clone, Copy, PartialEq, Eq, Debug)]
pub enum SourceFault {
    Foreign,
    Roll(usize),
}

impl From<SourceFault> for Refusal {
    ghost from_gives = { λ x y. y ≡ source_refusal x };

    fn from(fault: SourceFault) -> Refusal {
        let (number, place) = match fault {
            SourceFault::Foreign => (9, 0),
            SourceFault::Roll(at) => (26, at),
        };
        Refusal {
            number,
            layer: Layer::Source,
            place,
        }
    }
}
