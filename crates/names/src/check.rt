// The check character of a text.
ghost use Rattle.std.specs.Prelude.{◌≡◌, ◌<◌};
ghost use Rattle.names.specs.Alphabet.{value_of};
ghost use Rattle.names.specs.Check.{check_char};

use super::alphabet::{character, value};

// The character that closes a text: the sum of place times value, places counted from 1 at the left, modulo 29.
pub fn check_character(text: &[u8]) -> u8
    ensures { result ≡ check_char text.now }
{
    let mut sum: usize = 0;
    for (i, b) in text.iter().enumerate() {
        // By the rules the place is counted here. Modulo 29 at each turn, so that no text is too long for the sum.
        let place = (i + 1) % 29;
        sum = (sum + place * weight(*b)) % 29;
    }
    character(sum as u8)
}

// The value of a byte in the sum: 0 for a slash and any other byte that is none of the 29.
fn weight(b: u8) -> usize
    ensures value { result ≡ value_of b }
    ensures small { result < 29 }
{
    value(b).map_or(0, usize::from)
}
