// A name: at most 28 bytes.
ghost use Rattle.std.specs.Prelude.{◌≤◌, length};

use texts::short::Short;

pub mod calls;

#[derive(Clone, Copy)]
pub struct Name {
    text: Short<28>,
    ghost fits: { length text ≤ 28 },
}
