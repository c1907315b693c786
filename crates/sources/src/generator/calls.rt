// The generator as a source.
ghost use Rattle.std.specs.Prelude.{◌≡◌, ℕ, false, if◌then◌else◌, nat_lt};
ghost use Rattle.sources.specs.GeneratorLaws.{gen_lawful};
ghost use Rattle.sources.specs.Generators.{gen_stock};
ghost use Rattle.sources.specs.Lists.{count};
ghost use Rattle.sources.specs.Named.{total_of, new_stock};
ghost use Rattle.sources.specs.Stock.{is_given};
ghost use Rattle.sources.specs.Subcounters.{new_ahead};

use super::Generator;
use crate::chooser::Chooser;
use crate::source::{Source, Stand};
use crate::subcounters::Subcounters;
use names::fault::NameFault;
use names::name::Name;
use names::template::Template;

impl<C: Chooser> Generator<C> {
    // A generator that gave nothing: its list follows the chooser and holds each number below the total once.
    pub fn new(chooser: C, template: Template) -> Generator<C>
        ensures made { gen_stock C.Chooser.pick result ≡ new_stock template (new_ahead (total_of template) (C.Chooser.pick chooser)) }
        ensures each { (n : ℕ) → count n (gen_stock C.Chooser.pick result).ahead ≡ (if nat_lt n (total_of template) then 1 else 0) }
        ensures fresh { (n : ℕ) → is_given ((gen_stock C.Chooser.pick result).stands n) ≡ false }
    {
        let total = template.total();
        let subcounters = Subcounters::new(total);
        Generator {
            chooser,
            template,
            subcounters,
        }
    }
}

impl<C: Chooser> Source for Generator<C> {
    ghost stock = { λ s. gen_stock C.Chooser.pick s };

    ghost lawful = { gen_lawful C.Chooser.pick C.Chooser.under };

    fn draw(&mut self) -> Option<u64> {
        let live = self.subcounters.live();
        if live == 0 {
            return None;
        }
        let draws = self.subcounters.draws();
        let index = self.chooser.choose(draws, live);
        Some(self.subcounters.give(index))
    }

    fn stand(&self, n: u64) -> Stand {
        self.subcounters.stand(n)
    }

    #[tactic(auto, using(crate::proofs::Generating::length_ahead))]
    fn left(&self) -> u64 {
        self.subcounters.left()
    }

    fn name(&self, n: u64) -> Name {
        self.template.name(n)
    }

    fn validate(&self, text: &[u8]) -> Result<u64, NameFault> {
        self.template.validate(text)
    }
}
