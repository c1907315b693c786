// The 29 characters of names and their values.
ghost use Rattle.std.specs.Prelude.{◌≡◌, ◌<◌};
ghost use Rattle.names.specs.Alphabet.{char_of, value_in};

const ALPHABET: &[u8; 29] = b"0123456789bcdfghjkmnpqrstvwxz";

// The value of a character, if it is one of the 29: a match, since each byte of each name comes by here, and a search of the table would take 29 steps.
pub(crate) fn value(b: u8) -> Option<u8>
    ensures { result ≡ value_in b }
{
    match b {
        b'0'..=b'9' => Some(b - b'0'),
        b'b' => Some(10),
        b'c' => Some(11),
        b'd' => Some(12),
        b'f' => Some(13),
        b'g' => Some(14),
        b'h' => Some(15),
        b'j' => Some(16),
        b'k' => Some(17),
        b'm' => Some(18),
        b'n' => Some(19),
        b'p' => Some(20),
        b'q' => Some(21),
        b'r' => Some(22),
        b's' => Some(23),
        b't' => Some(24),
        b'v' => Some(25),
        b'w' => Some(26),
        b'x' => Some(27),
        b'z' => Some(28),
        _ => None,
    }
}

// The character of a value.
pub(crate) fn character(value: u8) -> u8
    requires { value < 29 }
    ensures { result ≡ char_of value }
{
    ALPHABET[value as usize]
}
