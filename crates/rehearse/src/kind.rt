// The kinds of calls, in the order in which they are told.
use machine::call::Call;
use std::fmt;

#[derive(Clone, Copy, PartialEq, Eq, PartialOrd, Ord)]
pub(crate) enum Kind {
    Mint,
    Hold,
    Release,
    Queue,
    Tick,
    Bind,
    Purge,
}

pub(crate) const KINDS: [Kind; 7] = [
    Kind::Mint,
    Kind::Hold,
    Kind::Release,
    Kind::Queue,
    Kind::Tick,
    Kind::Bind,
    Kind::Purge,
];

impl From<&Call<'_>> for Kind {
    fn from(call: &Call<'_>) -> Kind {
        match call {
            Call::Mint => Kind::Mint,
            Call::Hold(_) => Kind::Hold,
            Call::Release(_) => Kind::Release,
            Call::Queue(_, _) => Kind::Queue,
            Call::Tick(_) => Kind::Tick,
            Call::Bind(_, _, _) => Kind::Bind,
            Call::Purge(_, _) => Kind::Purge,
        }
    }
}

impl fmt::Display for Kind {
    fn fmt<W: fmt::Write>(&self, f: &mut fmt::Formatter<W>) -> fmt::Result {
        let word = match self {
            Kind::Mint => "mint",
            Kind::Hold => "hold",
            Kind::Release => "release",
            Kind::Queue => "queue",
            Kind::Tick => "tick",
            Kind::Bind => "bind",
            Kind::Purge => "purge",
        };
        write!(f, "{word}")
    }
}
