// The roll: a lent list of numbers, drawn in list order.
ghost use Rattle.std.specs.Prelude.{◌≡◌, ℕ, ◌≤◌, length};
ghost use Rattle.sources.specs.Lists.{count};
ghost use Rattle.sources.specs.Named.{total_of};

use names::template::Template;

pub mod calls;
mod look;

// The first `used` numbers are given: a place, and no two lists, since the list is lent whole. No number stands twice, and each is below the template's total.
#[derive(Clone, Copy)]
pub struct Roll<'a> {
    template: Template,
    numbers: &'a [u64],
    used: usize,
    ghost within: { used ≤ length numbers.now },
    ghost once: { (n : ℕ) → count n numbers.now ≤ 1 },
    ghost below: { (n : ℕ) → total_of template ≤ n → count n numbers.now ≡ 0 },
}
