// The places of a name, and what may stand there.
ghost use Rattle.std.specs.Prelude.{◌≡◌, ◌^◌, ◌<◌, true, if◌then◌else◌, Some, None, slice_index_or};
ghost use Rattle.names.specs.Validate.{position, fits, counted, slots};
ghost use Rattle.names.specs.Naming.{with_parts};

use super::alphabet::value;
use super::parts::Parts;

// A byte of the prefix, a digit at d, any of the 29 at e, and the check character.
#[derive(Clone, Copy)]
pub(crate) enum Slot {
    Fixed(u8),
    Digit,
    Letter,
    Closing,
}

impl Parts<'_> {
    // What stands at place i of a name; behind the mask only a check character can stand.
    pub(crate) fn slot_at(&self, i: usize) -> Slot
        ensures { result ≡ slice_index_or (slots (with_parts self.now.prefix.now self.now.mask.now true)) i Slot.Closing }
    {
        if i < self.prefix.len() {
            Slot::Fixed(self.prefix[i])
        } else if i - self.prefix.len() < self.mask.len() {
            slot_of(self.mask[i - self.prefix.len()])
        } else {
            Slot::Closing
        }
    }
}

fn slot_of(m: u8) -> Slot
    ensures { result ≡ position m }
{
    if m == b'd' { Slot::Digit } else { Slot::Letter }
}

impl Slot {
    // The number read so far with one more byte behind it, if the byte may stand here.
    pub(crate) fn count(self, b: u8, n: u64) -> Option<u64>
        requires { n < 2 ^ 40 }
        ensures { result ≡ (if fits self b then Some (counted self b n) else None) }
    {
        match (self, value(b)) {
            (Slot::Fixed(p), _) if p == b => Some(n),
            (Slot::Digit, Some(v)) if v < 10 => Some(n * 10 + v as u64),
            (Slot::Letter, Some(v)) => Some(n * 29 + v as u64),
            (Slot::Closing, Some(_)) => Some(n),
            _ => None,
        }
    }
}
