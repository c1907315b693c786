// The numbers on hold, and their places.
ghost use Rattle.std.specs.Prelude.{◌≡◌, ◌+◌, false, not, ◌&&◌, length, nat_le};
ghost use Rattle.sources.specs.Lists.{has};
ghost use Rattle.machine.specs.Machine.{added, without, outside};

use super::Lists;
use super::numbers::{add, outside, remove};

impl Lists {
    // Whether n is on hold.
    #[tactic(auto, using(sources::proofs::Looks::has_any))]
    pub(crate) fn holds(&self, n: u64) -> bool
        ensures { result ≡ has n self.now.held.items }
    {
        self.held.contains(&n)
    }

    // Whether n, which is not held, finds no place: it is not aside, and all places are used.
    #[tactic(auto, using(sources::proofs::Looks::has_any))]
    pub(crate) fn lacks_place(&self, n: u64) -> bool
        ensures { result ≡ (not (has n self.now.aside.items) && nat_le 64 (length self.now.aside.items + outside self.now.aside.items self.now.held.items)) }
    {
        !self.aside.contains(&n) && self.aside.len() + outside(&self.aside, &self.held) >= 64
    }

    // Puts n, which is not held and finds a place, among the held.
    pub(crate) fn put_on_hold(&mut self, n: u64)
        requires new { has n self.old.held.items ≡ false }
        requires place { (not (has n self.old.aside.items) && nat_le 64 (length self.old.aside.items + outside self.old.aside.items self.old.held.items)) ≡ false }
        ensures held { self.new.held.items ≡ added n self.old.held.items }
        ensures others { (self.new.aside ≡ self.old.aside) × (self.new.returned ≡ self.old.returned) × (self.new.delayed ≡ self.old.delayed) }
    {
        add(&mut self.held, n);
    }

    // Takes n out of the held.
    pub(crate) fn take_off_hold(&mut self, n: u64)
        ensures held { self.new.held.items ≡ without n self.old.held.items }
        ensures others { (self.new.aside ≡ self.old.aside) × (self.new.returned ≡ self.old.returned) × (self.new.delayed ≡ self.old.delayed) }
    {
        remove(&mut self.held, n);
    }
}
