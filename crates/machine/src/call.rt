// Calls and answers.
ghost use Rattle.std.specs.Prelude.{◌≡◌};
ghost use Rattle.machine.specs.Calls.{asked};
ghost use Rattle.machine.specs.Machine.{answer, said};

use crate::fault::RegisterFault;
use stores::text::Element;

// Names, and the texts of bind, are parts of what the caller read; an element word that is none of the four is None.
#[derive(Clone, Copy)]
pub enum Call<'a> {
    Mint,
    Hold(&'a [u8]),
    Release(&'a [u8]),
    Queue(&'a [u8], u64),
    Tick(u64),
    Bind(&'a [u8], Option<Element>, &'a [u8]),
    Purge(&'a [u8], Option<Element>),
}

impl<'a> Call<'a> {
    // The answer to the call, by what came of it.
    pub fn answer(&self, outcome: Result<u64, RegisterFault>) -> Answer
        ensures { result ≡ said (answer (asked self.now)) outcome }
    {
        let n = match outcome {
            Ok(n) => n,
            Err(fault) => return Answer::Refused(fault),
        };
        match self {
            Call::Mint => Answer::Minted(n),
            Call::Hold(_) => Answer::Held(n),
            Call::Release(_) => Answer::Released(n),
            Call::Queue(_, _) => Answer::Queued(n),
            Call::Tick(_) => Answer::Ticked(n),
            Call::Bind(_, _, _) => Answer::Bound(n),
            Call::Purge(_, _) => Answer::Purged(n),
        }
    }
}

// An accepted call on a name answers the name's number; a tick answers the clock. Eight cases, and no Result of seven: histories are read case by case.
#[derive(Clone, Copy)]
pub enum Answer {
    Minted(u64),
    Held(u64),
    Released(u64),
    Queued(u64),
    Ticked(u64),
    Bound(u64),
    Purged(u64),
    Refused(RegisterFault),
}

// A number that was queued with a delay, and the second at which it is due.
#[derive(Clone, Copy, PartialEq, Eq, Debug)]
pub struct Due {
    pub number: u64,
    pub second: u64,
}
