// Choosers: which of the live subcounters gives the next number.
ghost use Rattle.std.specs.Prelude.{◌≡◌, ℕ, ◌<◌, ◌≤◌};
ghost use Rattle.names.specs.Templates.{form};
ghost use Rattle.sources.specs.ChoiceLaws.{drand48_under, by_letter_under};
ghost use Rattle.sources.specs.Choices.{drand48, by_letter, serving};

use names::template::Template;

pub trait Chooser {
    // the index that is chosen, by the number of draws before and the count of live subcounters
    ghost pick: { Self → ℕ → ℕ → ℕ };

    // what each chooser must prove: the index is one of a live subcounter
    ghost under: { (s : Self) (draw live : ℕ) → 1 ≤ live → live ≤ 293 → pick s draw live < live };

    fn choose(&self, draw: u64, live: u64) -> u64
        ensures { result ≡ pick self.now draw live };
}

// Always the lowest live subcounter.
#[derive(Clone, Copy, PartialEq, Eq, Debug)]
pub struct First;

// By the POSIX generator drand48, seeded with the draw number.
#[derive(Clone, Copy, PartialEq, Eq, Debug)]
pub struct Drand48;

// The chooser that serves a template's letter: Ordered (s) is First, Scrambled (r) is Drand48.
#[derive(Clone, Copy, PartialEq, Eq, Debug)]
pub enum ByLetter {
    Ordered,
    Scrambled,
}

impl ByLetter {
    // The chooser that serves a template's letter.
    pub fn of(template: &Template) -> ByLetter
        ensures { result ≡ serving (form template.now) }
    {
        if template.scrambled() {
            ByLetter::Scrambled
        } else {
            ByLetter::Ordered
        }
    }
}

impl Chooser for First {
    ghost pick = { λ _ _ _. 0 };

    ghost under = { λ _ _ _ some few. some };

    fn choose(&self, _draw: u64, _live: u64) -> u64 {
        0
    }
}

impl Chooser for Drand48 {
    ghost pick = { λ _ draw live. drand48 draw live };

    ghost under = { λ _ draw live some few. drand48_under draw live some };

    // In 128 bits nothing wraps.
    fn choose(&self, draw: u64, live: u64) -> u64 {
        let m = draw % 0x1_0000_0000;
        let seed = m * 65_536 + 13_070;
        let x = (0x5_DEEC_E66D * (seed as u128) + 0xB) % 0x1_0000_0000_0000;
        (x * (live as u128) / 0x1_0000_0000_0000) as u64
    }
}

impl Chooser for ByLetter {
    ghost pick = { by_letter };

    ghost under = { λ s draw live some few. by_letter_under s draw live some };

    fn choose(&self, draw: u64, live: u64) -> u64 {
        match self {
            ByLetter::Ordered => First.choose(draw, live),
            ByLetter::Scrambled => Drand48.choose(draw, live),
        }
    }
}
