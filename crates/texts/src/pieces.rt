// The pieces of a text, one after another.
ghost use Rattle.std.specs.Prelude.{◌≡◌, ◌≤◌, length};
ghost use Rattle.std.specs.Iterator.{YieldsFirstRef, item_count};
ghost use Rattle.texts.specs.Pieces.{pieces};

use crate::piece_end;
use std::marker::Model;

// What is left of a text that is cut at each mark, seen as the list of the pieces that are left.
#[derive(Drop)]
pub struct Pieces<'a> {
    rest: &'a [u8],
    mark: u8,
}

impl<'a> Model for Pieces<'a> {
    ghost use Rattle.std.specs.Prelude.{ℕ, List};
    ghost use Rattle.texts.specs.Pieces.{pieces};

    ghost Value = { List (List ℕ) };

    ghost view = { λ p. pieces p.mark p.rest.now };
}

impl<'a> Pieces<'a> {
    // All pieces of the text.
    pub fn of(text: &'a [u8], mark: u8) -> Pieces<'a>
        ensures value { result ≡ pieces mark text.now }
        ensures few { length result ≤ length text.now }
    {
        Pieces { rest: text, mark }
    }
}

impl<'a> Iterator for Pieces<'a> {
    type Item = &'a [u8];

    ghost next_gives = { YieldsFirstRef (λ left. left) };

    ghost remaining = { item_count (λ left. left) };

    fn next(&mut self) -> Option<&'a [u8]> {
        if self.rest.is_empty() {
            return None;
        }
        let end = piece_end(self.rest, 0, self.mark);
        let piece = &self.rest[..end];
        self.rest = self.rest.get(end + 1..).unwrap_or(&[]);
        Some(piece)
    }
}
