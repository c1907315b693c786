// Holding names back from minting, and releasing them.
ghost use Rattle.std.specs.Prelude.{◌≡◌, false, is_ok};
ghost use Rattle.machine.specs.Machine.{hold, release};
ghost use Rattle.minter.specs.Meaning.{meaning};
ghost use Rattle.machine.specs.Runs.{Sound};

use super::Register;
use machine::fault::RegisterFault;
use machine::text::Text;
use sources::source::Source;
use stores::store::Store;
use stores::text::TextKey;

impl<S: Source, T: Store<TextKey, Text>> Register<S, T> {
    // Puts a name on hold.
    pub fn hold(&mut self, name: &[u8]) -> Result<u64, RegisterFault>
        ensures after { meaning S.Source.stock T.Store.pairs T.Store.capacity self.new ≡ (hold (meaning S.Source.stock T.Store.pairs T.Store.capacity self.old) name.now).0 }
        ensures answer { result ≡ (hold (meaning S.Source.stock T.Store.pairs T.Store.capacity self.old) name.now).1 }
        ensures refusal { is_ok result ≡ false → self.new ≡ self.old }
        ensures texts { self.new.texts ≡ self.old.texts }
        ensures sound { Sound (meaning S.Source.stock T.Store.pairs T.Store.capacity self.old) → Sound (meaning S.Source.stock T.Store.pairs T.Store.capacity self.new) }
    {
        let n = self.number(name)?;
        if self.lists.holds(n) {
            return Err(RegisterFault::HeldAlready);
        }
        if self.lists.lacks_place(n) {
            return Err(RegisterFault::HoldPlaces);
        }
        self.lists.put_on_hold(n);
        Ok(n)
    }

    // Takes a name's hold away.
    pub fn release(&mut self, name: &[u8]) -> Result<u64, RegisterFault>
        ensures after { meaning S.Source.stock T.Store.pairs T.Store.capacity self.new ≡ (release (meaning S.Source.stock T.Store.pairs T.Store.capacity self.old) name.now).0 }
        ensures answer { result ≡ (release (meaning S.Source.stock T.Store.pairs T.Store.capacity self.old) name.now).1 }
        ensures refusal { is_ok result ≡ false → self.new ≡ self.old }
        ensures texts { self.new.texts ≡ self.old.texts }
        ensures sound { Sound (meaning S.Source.stock T.Store.pairs T.Store.capacity self.old) → Sound (meaning S.Source.stock T.Store.pairs T.Store.capacity self.new) }
    {
        let n = self.number(name)?;
        if !self.lists.holds(n) {
            return Err(RegisterFault::NotHeld);
        }
        self.lists.take_off_hold(n);
        Ok(n)
    }
}
