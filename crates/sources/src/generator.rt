// The generator: every number below the template's total, in the order that its chooser makes.
ghost use Rattle.std.specs.Prelude.{◌≡◌};
ghost use Rattle.sources.specs.Named.{total_of};

use crate::subcounters::Subcounters;
use names::template::Template;

pub mod calls;

#[derive(Drop)]
pub struct Generator<C> {
    chooser: C,
    template: Template,
    subcounters: Subcounters,
    ghost whole: { subcounters.total ≡ total_of template },
}
