// Names taken back.
ghost use Rattle.std.specs.Prelude.{◌≡◌, ◌||◌, ◌++◌};
ghost use Rattle.sources.specs.Lists.{has};
ghost use Rattle.machine.specs.Machine.{numbers, by, later_than, in_order};

use super::Lists;
use super::dues::{queued, take_soonest};

impl Lists {
    // Whether n is to come from one of the lists.
    #[tactic(auto, using(sources::proofs::Looks::has_any))]
    pub(crate) fn has(&self, n: u64) -> bool
        ensures { result ≡ (has n self.now.aside.items || (has n self.now.returned.items || has n (numbers self.now.delayed.items))) }
    {
        self.aside.contains(&n) || self.returned.contains(&n) || queued(&self.delayed, n)
    }

    // Moves what is due by a second to the end of returned, the soonest first.
    pub(crate) fn return_due(&mut self, until: u64)
        ensures returned { self.new.returned.items ≡ self.old.returned.items ++ numbers (in_order (by until self.old.delayed.items)) }
        ensures delayed { self.new.delayed.items ≡ later_than until self.old.delayed.items }
        ensures others { (self.new.aside ≡ self.old.aside) × (self.new.held ≡ self.old.held) }
    {
        while let Some(n) = take_soonest(&mut self.delayed, until) {
            self.returned.push_reserved(n);
        }
    }
}
