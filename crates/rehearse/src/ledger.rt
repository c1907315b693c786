// An account of a run kept apart from the register: what its answers say of each number.
use crate::kind::Kind;
use crate::level::Level;
use machine::call::{Answer, Call};
use names::fault::Refusal;
use std::alloc::{AllocError, Global};
use std::collections::BTreeMap;

// A number's turns: how often it was minted and queued, whether it waits for its next turn, and whether it is on hold.
#[derive(Clone, Copy)]
struct Turns {
    minted: u64,
    queued: u64,
    waits: bool,
    held: bool,
}

const NEW: Turns = Turns {
    minted: 0,
    queued: 0,
    waits: true,
    held: false,
};

impl Turns {
    // Whether it was minted as often as it got its turn: once at first, and once for each accepted queuing, less one if it waits.
    fn agree(&self) -> bool {
        self.minted.saturating_add(u64::from(self.waits)) == self.queued.saturating_add(1)
    }
}

// How many calls of a kind were asked, and how many of them accepted.
#[derive(Clone, Copy, Default)]
pub(crate) struct Counts {
    pub(crate) asked: u64,
    pub(crate) accepted: u64,
}

// `agrees` says whether each answer so far was one that its number could get then.
#[derive(Drop)]
pub(crate) struct Ledger {
    turns: BTreeMap<u64, Turns>,
    counts: BTreeMap<Kind, Counts>,
    pub(crate) refused: BTreeMap<u8, u64>,
    pub(crate) held: Level,
    pub(crate) queued: Level,
    agrees: bool,
}

impl Ledger {
    pub(crate) fn new(heap: Global) -> Ledger {
        Ledger {
            turns: BTreeMap::new(heap),
            counts: BTreeMap::new(heap),
            refused: BTreeMap::new(heap),
            held: Level::default(),
            queued: Level::default(),
            agrees: true,
        }
    }

    // A minted name waited and was not on hold.
    fn mint(&mut self, n: u64) -> Result<(), AllocError> {
        let turns = self.turns.entry(n)?.or_insert(NEW);
        self.agrees &= turns.waits && !turns.held;
        if turns.queued > 0 {
            self.queued.fall();
        }
        turns.waits = false;
        turns.minted = turns.minted.saturating_add(1);
        Ok(())
    }

    // A queued name did not wait and was not on hold.
    fn queue(&mut self, n: u64) -> Result<(), AllocError> {
        let turns = self.turns.entry(n)?.or_insert(NEW);
        self.agrees &= !turns.waits && !turns.held;
        turns.waits = true;
        turns.queued = turns.queued.saturating_add(1);
        self.queued.rise();
        Ok(())
    }

    // A held name was not on hold.
    fn hold(&mut self, n: u64) -> Result<(), AllocError> {
        let turns = self.turns.entry(n)?.or_insert(NEW);
        self.agrees &= !turns.held;
        turns.held = true;
        self.held.rise();
        Ok(())
    }

    // A released name was on hold.
    fn release(&mut self, n: u64) -> Result<(), AllocError> {
        let turns = self.turns.entry(n)?.or_insert(NEW);
        self.agrees &= turns.held;
        turns.held = false;
        self.held.fall();
        Ok(())
    }

    fn refuse(&mut self, number: u8) -> Result<(), AllocError> {
        let count = self.refused.entry(number)?.or_insert(0);
        *count = count.saturating_add(1);
        Ok(())
    }

    fn count(&mut self, kind: Kind, is_accepted: bool) -> Result<(), AllocError> {
        let counts = self.counts.entry(kind)?.or_default();
        counts.asked = counts.asked.saturating_add(1);
        counts.accepted = counts.accepted.saturating_add(u64::from(is_accepted));
        Ok(())
    }

    // One call with its answer.
    pub(crate) fn note(&mut self, call: &Call<'_>, answer: &Answer) -> Result<(), AllocError> {
        self.count(Kind::from(call), !matches!(answer, Answer::Refused(_)))?;
        match answer {
            Answer::Minted(n) => self.mint(*n),
            Answer::Queued(n) => self.queue(*n),
            Answer::Held(n) => self.hold(*n),
            Answer::Released(n) => self.release(*n),
            Answer::Ticked(_) | Answer::Bound(_) | Answer::Purged(_) => Ok(()),
            Answer::Refused(fault) => self.refuse(Refusal::from(*fault).number),
        }
    }

    // The counts of a kind; none were asked where there are none.
    pub(crate) fn counts(&self, kind: Kind) -> Counts {
        self.counts.get(&kind).copied().unwrap_or_default()
    }

    // Whether each answer was one that its number could get, and each number was minted as often as it got its turn.
    pub(crate) fn agrees(&self) -> bool {
        self.agrees && self.turns.values().all(|turns| turns.agree())
    }

    // How many different names were minted.
    pub(crate) fn names(&self) -> usize {
        self.turns.values().filter(|turns| turns.minted > 0).count()
    }
}
