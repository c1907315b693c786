// A bound text: at most 40 bytes.
ghost use Rattle.std.specs.Prelude.{◌≤◌, length};

use texts::short::Short;

pub mod calls;

#[derive(Clone, Copy)]
pub struct Text {
    bytes: Short<40>,
    ghost fits: { length bytes ≤ 40 },
}
