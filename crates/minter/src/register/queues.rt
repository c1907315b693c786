// Taking names back, and the clock.
ghost use Rattle.std.specs.Prelude.{◌≡◌, false, is_ok};
ghost use Rattle.machine.specs.Machine.{queue, tick};
ghost use Rattle.minter.specs.Meaning.{meaning};
ghost use Rattle.machine.specs.Runs.{Sound};

use super::Register;
use machine::call::Due;
use machine::fault::RegisterFault;
use machine::text::Text;
use sources::source::Source;
use stores::store::Store;
use stores::text::TextKey;

impl<S: Source, T: Store<TextKey, Text>> Register<S, T> {
    // Sets the clock; what is due by then is taken back.
    pub fn tick(&mut self, to: u64) -> Result<u64, RegisterFault>
        ensures after { meaning S.Source.stock T.Store.pairs T.Store.capacity self.new ≡ (tick (meaning S.Source.stock T.Store.pairs T.Store.capacity self.old) to).0 }
        ensures answer { result ≡ (tick (meaning S.Source.stock T.Store.pairs T.Store.capacity self.old) to).1 }
        ensures refusal { is_ok result ≡ false → self.new ≡ self.old }
        ensures texts { self.new.texts ≡ self.old.texts }
        ensures sound { Sound (meaning S.Source.stock T.Store.pairs T.Store.capacity self.old) → Sound (meaning S.Source.stock T.Store.pairs T.Store.capacity self.new) }
    {
        if to < self.clock || to > 1_000_000_000_000 {
            return Err(RegisterFault::Clock);
        }
        self.lists.return_due(to);
        self.clock = to;
        Ok(to)
    }

    // Takes a minted name back, at once or after a delay in seconds.
    pub fn queue(&mut self, name: &[u8], delay: u64) -> Result<u64, RegisterFault>
        ensures after { T.Store.sound self.old.texts → meaning S.Source.stock T.Store.pairs T.Store.capacity self.new ≡ (queue (meaning S.Source.stock T.Store.pairs T.Store.capacity self.old) name.now delay).0 }
        ensures answer { T.Store.sound self.old.texts → result ≡ (queue (meaning S.Source.stock T.Store.pairs T.Store.capacity self.old) name.now delay).1 }
        ensures refusal { is_ok result ≡ false → self.new ≡ self.old }
        ensures texts { self.new.texts ≡ self.old.texts }
        ensures sound { Sound (meaning S.Source.stock T.Store.pairs T.Store.capacity self.old) → T.Store.sound self.old.texts → Sound (meaning S.Source.stock T.Store.pairs T.Store.capacity self.new) }
    {
        let n = self.number(name)?;
        if delay > 31_536_000 {
            return Err(RegisterFault::Delay);
        }
        if self.waits(n) {
            return Err(RegisterFault::Waits);
        }
        if self.lists.holds(n) {
            return Err(RegisterFault::IsHeld);
        }
        if self.has_text(n) {
            return Err(RegisterFault::HasText);
        }
        if self.lists.returned.len() + self.lists.delayed.len() >= 64 {
            return Err(RegisterFault::QueuePlaces);
        }
        if delay == 0 {
            self.lists.returned.push_reserved(n);
        } else {
            let second = self.clock + delay;
            self.lists.delayed.push_reserved(Due { number: n, second });
        }
        Ok(n)
    }
}
