// Taking numbers to be minted out of the lists; held numbers that a mint passes come aside.
ghost use Rattle.std.specs.Prelude.{◌≡◌, ◌≤◌, true, false, drop, is_some, vec_len};
ghost use Rattle.sources.specs.Lists.{has, first};
ghost use Rattle.machine.specs.Machine.{Machine, back};
ghost use Rattle.minter.specs.Meaning.{over};
ghost use Rattle.minter.specs.Passes.{aside_put, aside_taken, returned_taken, passed};

use super::Lists;
use super::numbers::first_free;

impl Lists {
    // Takes the first number that is not held out of aside.
    pub(crate) fn take_aside(&mut self) -> Option<u64>
        ensures answer { result ≡ first (back (λ x. has x self.old.held.items) self.old.aside.items) }
        ensures after { is_some result ≡ true → (m : Machine) → over m self.new ≡ aside_taken (over m self.old) }
        ensures refusal { is_some result ≡ false → self.new ≡ self.old }
    {
        let at = first_free(&self.aside, &self.held)?;
        Some(self.aside.remove(at))
    }

    // A held number that is not aside yet comes to the end of aside; there is room, since it has its place already.
    #[tactic(auto, using(sources::proofs::Looks::has_any))]
    pub(crate) fn set_aside(&mut self, n: u64)
        ensures after { (m : Machine) → over m self.new ≡ aside_put (over m self.old) n }
        ensures returned { self.new.returned ≡ self.old.returned }
    {
        if self.holds(n) && !self.aside.contains(&n) {
            self.aside.push_reserved(n);
        }
    }

    // The first numbers of returned come aside, as many as are said; one by one, since a `drain` would hold the lists that they come into.
    pub(crate) fn pass_returned(&mut self, many: usize)
        requires { many ≤ vec_len self.old.returned }
        ensures after { (m : Machine) → over m self.new ≡ passed (over m self.old) many }
        ensures returned { self.new.returned.items ≡ drop many self.old.returned.items }
    {
        for _ in 0..many {
            let next = self.returned.remove(0);
            self.set_aside(next);
        }
    }

    // Takes the first number that is not held out of returned; those before it come aside.
    pub(crate) fn take_returned(&mut self) -> Option<u64>
        ensures answer { result ≡ first (back (λ x. has x self.old.held.items) self.old.returned.items) }
        ensures after { is_some result ≡ true → (m : Machine) → over m self.new ≡ returned_taken (over m self.old) }
        ensures refusal { is_some result ≡ false → self.new ≡ self.old }
    {
        let at = first_free(&self.returned, &self.held)?;
        self.pass_returned(at);
        Some(self.returned.remove(0))
    }
}
