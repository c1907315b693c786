// Minting: the first number that is not held, aside, then returned, then from the source.
ghost use Rattle.std.specs.Prelude.{◌≡◌, ◌≤◌, true, false, not, is_some, is_ok, count_by};
ghost use Rattle.sources.specs.Lists.{first};
ghost use Rattle.sources.specs.Stock.{is_ahead};
ghost use Rattle.machine.specs.Machine.{back, holds, none_to_mint, mint};
ghost use Rattle.minter.specs.Meaning.{meaning};
ghost use Rattle.machine.specs.Runs.{Sound};
ghost use Rattle.minter.specs.Passes.{drawn_free};

use super::Register;
use machine::fault::RegisterFault;
use machine::text::Text;
use sources::source::Source;
use stores::store::Store;
use stores::text::TextKey;

impl<S: Source, T: Store<TextKey, Text>> Register<S, T> {
    // How many held numbers are ahead in the source.
    fn held_ahead(&self) -> u64
        ensures { result ≡ count_by (λ x. is_ahead ((S.Source.stock self.now.source).stands x)) self.now.lists.held.items }
    {
        self.lists
            .held
            .iter()
            .filter(|x| self.is_ahead(**x))
            .count() as u64
    }

    // Whether all that is ahead in the source is held, which is known before the first draw.
    fn all_ahead_held(&self) -> bool
        ensures { result ≡ not (is_some (first (back (holds (meaning S.Source.stock T.Store.pairs T.Store.capacity self.now)) (S.Source.stock self.now.source).ahead))) }
    {
        self.held_ahead() == self.source.left()
    }

    // Why there is nothing to mint.
    fn why_none(&self) -> RegisterFault
        ensures { result ≡ none_to_mint (meaning S.Source.stock T.Store.pairs T.Store.capacity self.now) }
    {
        if self.source.left() == 0
            && self.lists.aside.is_empty()
            && self.lists.returned.is_empty()
            && self.lists.delayed.is_empty()
        {
            RegisterFault::NothingWaits
        } else {
            RegisterFault::AllStopped
        }
    }

    // Draws until a number that is not held; those passed come aside.
    fn draw_free(&mut self) -> Option<u64>
        ensures after { meaning S.Source.stock T.Store.pairs T.Store.capacity self.new ≡ (drawn_free (S.Source.stock self.old.source).ahead (meaning S.Source.stock T.Store.pairs T.Store.capacity self.old)).0 }
        ensures answer { result ≡ (drawn_free (S.Source.stock self.old.source).ahead (meaning S.Source.stock T.Store.pairs T.Store.capacity self.old)).1 }
        ensures texts { self.new.texts ≡ self.old.texts }
    {
        while let Some(n) = self.source.draw() {
            if !self.lists.holds(n) {
                return Some(n);
            }
            self.lists.set_aside(n);
        }
        None
    }

    // Mints the first number that is not held. A refused mint draws and moves nothing.
    pub fn mint(&mut self) -> Result<u64, RegisterFault>
        ensures after { Sound (meaning S.Source.stock T.Store.pairs T.Store.capacity self.old) → meaning S.Source.stock T.Store.pairs T.Store.capacity self.new ≡ (mint (meaning S.Source.stock T.Store.pairs T.Store.capacity self.old)).0 }
        ensures answer { Sound (meaning S.Source.stock T.Store.pairs T.Store.capacity self.old) → result ≡ (mint (meaning S.Source.stock T.Store.pairs T.Store.capacity self.old)).1 }
        ensures refusal { Sound (meaning S.Source.stock T.Store.pairs T.Store.capacity self.old) → is_ok result ≡ false → self.new ≡ self.old }
        ensures texts { self.new.texts ≡ self.old.texts }
        ensures sound { Sound (meaning S.Source.stock T.Store.pairs T.Store.capacity self.old) → Sound (meaning S.Source.stock T.Store.pairs T.Store.capacity self.new) }
    {
        if let Some(n) = self.lists.take_aside() {
            return Ok(n);
        }
        if let Some(n) = self.lists.take_returned() {
            return Ok(n);
        }
        if self.all_ahead_held() {
            return Err(self.why_none());
        }
        let many = self.lists.returned.len();
        self.lists.pass_returned(many);
        self.draw_free().ok_or(RegisterFault::AllStopped)
    }
}
