// Texts of at most N bytes, kept in place.
ghost use Rattle.std.specs.Prelude.{◌≡◌, ◌≤◌, [], ◌∷◌, ◌++◌, length, take, drop};
ghost use Rattle.texts.specs.Short.{within};

use std::marker::Model;

// Past the length stand zeros. (The kit's vectors in place are not `Copy`, and names are copied.)
#[derive(Clone, Copy)]
pub struct Short<const N: usize> {
    bytes: [u8; N],
    len: usize,
}

impl<const N: usize> Model for Short<N> {
    ghost use Rattle.std.specs.Prelude.{◌≡◌, ℕ, List, length, take};
    ghost use Rattle.texts.specs.Short.{padded};

    ghost Value = { List ℕ };

    ghost view = { λ s. take s.len s.bytes };

    ghost invariant = { λ s. (length (take s.len s.bytes) ≡ s.len) × (padded N (take s.len s.bytes) ≡ s.bytes) };

    ghost inverse = { λ t. record { bytes = padded N t; len = length t } };

    ghost inverse_ok = { λ s h. λ j. record { bytes = h.1 j; len = h.0 j } };
}

// Writes a text at the beginning of a list.
fn fill(out: &mut [u8], text: &[u8])
    requires { length text.now ≤ length out.old }
    ensures { out.new ≡ text.now ++ drop (length text.now) out.old }
{
    out[..text.len()].copy_from_slice(text);
}

impl<const N: usize> Short<N> {
    // The empty text.
    pub fn new() -> Self
        ensures { result ≡ [] }
    {
        Short {
            bytes: [0; N],
            len: 0,
        }
    }

    // The first bytes of a text, at most N of them.
    pub fn front(text: &[u8]) -> Self
        ensures { result ≡ take N text.now }
    {
        let kept = &text[..text.len().min(N)];
        let mut bytes = [0; N];
        fill(&mut bytes, kept);
        Short {
            bytes,
            len: kept.len(),
        }
    }

    // The whole of a text, if it has at most N bytes.
    pub fn read(text: &[u8]) -> Option<Self>
        ensures { result ≡ within N text.now }
    {
        if text.len() > N {
            None
        } else {
            Some(Short::front(text))
        }
    }

    // One byte more at the end; where there is no room it is left out.
    pub fn push(&mut self, b: u8)
        ensures { self.new ≡ take N (self.old ++ b ∷ []) }
    {
        if self.len < N {
            self.bytes[self.len] = b;
            self.len += 1;
        }
    }

    // The bytes of the text.
    pub fn as_slice(&self) -> &[u8]
        ensures bytes { result.now ≡ self.now }
        ensures short { length self.now ≤ N }
    {
        let bytes = &self.bytes[..];
        &bytes[..self.len]
    }
}
