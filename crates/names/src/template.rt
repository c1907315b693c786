// A template: its text, and the lengths of its parts.
ghost use Rattle.std.specs.Prelude.{◌≡◌, ◌+◌, ◌≤◌, true, length, if◌then◌else◌};
ghost use Rattle.names.specs.Reader.{read_shape, reads_as};

use self::parts::Shape;
use texts::short::Short;

pub mod calls;
pub mod names;
pub mod parts;
pub mod read;

#[derive(Clone, Copy)]
pub struct Template {
    text: Short<30>,
    shape: Shape,
    ghost reads: { reads_as (read_shape text) shape ≡ true },
    ghost shoulder_few: { shape.shoulder ≤ 13 },
    ghost mask_some: { 1 ≤ shape.mask },
    ghost mask_few: { shape.mask ≤ 8 },
    ghost sum: { length text ≡ 8 + shape.shoulder + shape.mask + (if shape.check then 1 else 0) },
}
