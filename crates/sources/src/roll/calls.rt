// The roll as a source.
ghost use Rattle.std.specs.Prelude.{◌≡◌, ℕ, false, []};
ghost use Rattle.sources.specs.Named.{total_of, new_stock};
ghost use Rattle.sources.specs.RollLaws.{roll_lawful};
ghost use Rattle.sources.specs.RollMeans.{roll_stock};
ghost use Rattle.sources.specs.Rolls.{first_wrong, accepted, refusal_at};
ghost use Rattle.sources.specs.Stock.{is_given};

use super::Roll;
use super::look::first_wrong;
use crate::fault::SourceFault;
use crate::source::{Source, Stand};
use names::fault::NameFault;
use names::name::Name;
use names::template::Template;

impl<'a> Roll<'a> {
    // A roll over the numbers, none given; where they have a wrong one, an empty roll beside its fault.
    // A pair and no `Result`: it promises a roll in every case, and `run_roll` serves its calls over the empty one too.
    pub fn new(template: Template, numbers: &'a [u64]) -> (Roll<'a>, Option<SourceFault>)
        ensures made { roll_stock result.0 ≡ new_stock template (accepted (first_wrong (total_of template) [] numbers.now) numbers.now) }
        ensures fault { result.1 ≡ refusal_at (first_wrong (total_of template) [] numbers.now) }
        ensures fresh { (n : ℕ) → is_given ((roll_stock result.0).stands n) ≡ false }
    {
        let wrong = first_wrong(numbers, template.total());
        let numbers = match wrong {
            None => numbers,
            Some(_) => &[],
        };
        let roll = Roll {
            template,
            numbers,
            used: 0,
        };
        (roll, wrong.map(SourceFault::Roll))
    }
}

impl Source for Roll<'_> {
    ghost stock = { roll_stock };

    ghost lawful = { roll_lawful };

    fn draw(&mut self) -> Option<u64> {
        let n = *self.numbers.get(self.used)?;
        self.used += 1;
        Some(n)
    }

    #[tactic(auto, using(crate::proofs::Looks::has_any))]
    fn stand(&self, n: u64) -> Stand {
        let (given, ahead) = self.numbers.split_at(self.used);
        if ahead.contains(&n) {
            Stand::Ahead
        } else if given.contains(&n) {
            Stand::Given
        } else {
            Stand::Foreign
        }
    }

    fn left(&self) -> u64 {
        (self.numbers.len() - self.used) as u64
    }

    fn name(&self, n: u64) -> Name {
        self.template.name(n)
    }

    fn validate(&self, text: &[u8]) -> Result<u64, NameFault> {
        self.template.validate(text)
    }
}
