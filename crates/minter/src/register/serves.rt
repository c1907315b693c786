// One call of the seven.
ghost use Rattle.std.specs.Prelude.{◌≡◌, false, is_ok};
ghost use Rattle.machine.specs.Calls.{asked};
ghost use Rattle.machine.specs.History.{accepted};
ghost use Rattle.machine.specs.Machine.{outcome, step};
ghost use Rattle.machine.specs.Runs.{Sound};
ghost use Rattle.minter.specs.Meaning.{meaning};

use super::Register;
use machine::call::{Answer, Call};
use machine::fault::RegisterFault;
use machine::text::Text;
use sources::source::Source;
use stores::store::Store;
use stores::text::TextKey;

impl<S: Source, T: Store<TextKey, Text>> Register<S, T> {
    // What comes of a call.
    fn outcome(&mut self, call: &Call<'_>) -> Result<u64, RegisterFault>
        ensures after { Sound (meaning S.Source.stock T.Store.pairs T.Store.capacity self.old) → T.Store.sound self.old.texts → meaning S.Source.stock T.Store.pairs T.Store.capacity self.new ≡ (outcome (meaning S.Source.stock T.Store.pairs T.Store.capacity self.old) (asked call.now)).0 }
        ensures answer { Sound (meaning S.Source.stock T.Store.pairs T.Store.capacity self.old) → T.Store.sound self.old.texts → result ≡ (outcome (meaning S.Source.stock T.Store.pairs T.Store.capacity self.old) (asked call.now)).1 }
        ensures refusal { Sound (meaning S.Source.stock T.Store.pairs T.Store.capacity self.old) → T.Store.sound self.old.texts → is_ok result ≡ false → self.new ≡ self.old }
        ensures store { T.Store.sound self.old.texts → T.Store.sound self.new.texts }
    {
        match call {
            Call::Mint => self.mint(),
            Call::Hold(name) => self.hold(name),
            Call::Release(name) => self.release(name),
            Call::Queue(name, delay) => self.queue(name, *delay),
            Call::Tick(to) => self.tick(*to),
            Call::Bind(name, element, text) => self.bind(name, *element, text),
            Call::Purge(name, element) => self.purge(name, *element),
        }
    }

    // One call of the seven, and its answer.
    pub fn serve(&mut self, call: &Call<'_>) -> Answer
        ensures after { Sound (meaning S.Source.stock T.Store.pairs T.Store.capacity self.old) → T.Store.sound self.old.texts → meaning S.Source.stock T.Store.pairs T.Store.capacity self.new ≡ (step (meaning S.Source.stock T.Store.pairs T.Store.capacity self.old) (asked call.now)).0 }
        ensures answer { Sound (meaning S.Source.stock T.Store.pairs T.Store.capacity self.old) → T.Store.sound self.old.texts → result ≡ (step (meaning S.Source.stock T.Store.pairs T.Store.capacity self.old) (asked call.now)).1 }
        ensures refusal { Sound (meaning S.Source.stock T.Store.pairs T.Store.capacity self.old) → T.Store.sound self.old.texts → accepted result ≡ false → self.new ≡ self.old }
        ensures store { T.Store.sound self.old.texts → T.Store.sound self.new.texts }
        ensures sound { Sound (meaning S.Source.stock T.Store.pairs T.Store.capacity self.old) → T.Store.sound self.old.texts → Sound (meaning S.Source.stock T.Store.pairs T.Store.capacity self.new) }
    {
        let outcome = self.outcome(call);
        call.answer(outcome)
    }
}
