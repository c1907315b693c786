// What the names of a template are made of.
ghost use Rattle.std.specs.Prelude.{◌<◌, ◌≤◌, length};

// The text before the dot, the mask, and whether a check character closes each name.
#[derive(Clone, Copy)]
pub(crate) struct Parts<'a> {
    pub(crate) prefix: &'a [u8],
    pub(crate) mask: &'a [u8],
    pub(crate) check: bool,
    ghost prefix_some: { 0 < length prefix.now },
    ghost prefix_few: { length prefix.now ≤ 19 },
    ghost mask_few: { length mask.now ≤ 8 },
}
