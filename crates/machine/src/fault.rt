// Why the register refuses. The faults of the layers below stand in its own whole.
ghost use Rattle.std.specs.Prelude.{◌≡◌};
ghost use Rattle.machine.specs.Faults.{register_refusal};
ghost use Rattle.machine.specs.declared.fault.RegisterFault.TheVariants.{Name, Source, Store};

use names::fault::{Layer, NameFault, Refusal};
use sources::fault::SourceFault;
use stores::fault::StoreFault;

#[derive(Clone, Copy, PartialEq, Eq, Debug)]
pub enum RegisterFault {
    Name(NameFault),
    Source(SourceFault),
    Store(StoreFault),
    HeldAlready,
    NotHeld,
    HoldPlaces,
    Waits,
    IsHeld,
    HasText,
    QueuePlaces,
    Delay,
    Clock,
    ElementWord,
    LongText,
    NoText,
    NothingWaits,
    AllStopped,
}

impl From<RegisterFault> for Refusal {
    ghost from_gives = { λ x y. y ≡ register_refusal x };

    fn from(fault: RegisterFault) -> Refusal {
        let number = match fault {
            RegisterFault::Name(fault) => return Refusal::from(fault),
            RegisterFault::Source(fault) => return Refusal::from(fault),
            RegisterFault::Store(fault) => return Refusal::from(fault),
            RegisterFault::HeldAlready => 10,
            RegisterFault::NotHeld => 11,
            RegisterFault::HoldPlaces => 12,
            RegisterFault::Waits => 13,
            RegisterFault::IsHeld => 14,
            RegisterFault::HasText => 15,
            RegisterFault::QueuePlaces => 16,
            RegisterFault::Delay => 17,
            RegisterFault::Clock => 18,
            RegisterFault::ElementWord => 19,
            RegisterFault::LongText => 20,
            RegisterFault::NoText => 21,
            RegisterFault::NothingWaits => 22,
            RegisterFault::AllStopped => 23,
        };
        Refusal {
            number,
            layer: Layer::Register,
            place: 0,
        }
    }
}

impl From<NameFault> for RegisterFault {
    ghost from_gives = { λ x y. y ≡ Name x };

    fn from(value: NameFault) -> RegisterFault {
        RegisterFault::Name(value)
    }
}

impl From<SourceFault> for RegisterFault {
    ghost from_gives = { λ x y. y ≡ Source x };

    fn from(value: SourceFault) -> RegisterFault {
        RegisterFault::Source(value)
    }
}

impl From<StoreFault> for RegisterFault {
    ghost from_gives = { λ x y. y ≡ Store x };

    fn from(value: StoreFault) -> RegisterFault {
        RegisterFault::Store(value)
    }
}
