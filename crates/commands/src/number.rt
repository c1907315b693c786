// Number words.
ghost use Rattle.std.specs.Prelude.{◌≡◌, refl};
ghost use Rattle.commands.specs.Numbers.{number, count, delay, delays};

use crate::word::{Keyword, word_of};

// The number that a word of 1 to 13 digits writes; only 0 itself begins with 0.
pub(crate) fn number_of(word: &[u8]) -> Option<u64>
    ensures { result ≡ number word.now }
{
    if word.is_empty() || word.len() > 13 || (word.len() > 1 && word[0] == b'0') {
        return None;
    }
    let mut n = 0;
    for b in word {
        if !b.is_ascii_digit() {
            return None;
        }
        n = n * 10 + u64::from(*b - b'0');
    }
    Some(n)
}

// How many names a mint is asked for, 1 to 100.
pub(crate) fn count_of(word: &[u8]) -> Option<u64>
    ensures { result ≡ count word.now }
{
    number_of(word).filter(|n| (1..=100).contains(n))
}

// The words that stand for a number of seconds.
impl Keyword for u64 {
    ghost table = { delays };

    ghost plain = { refl };

    fn named(text: &str) -> Option<Self> {
        match text {
            "now" => Some(0),
            _ => None,
        }
    }
}

// The seconds that a queue is asked for; `now` is 0.
pub(crate) fn delay_of(word: &[u8]) -> Option<u64>
    ensures { result ≡ delay word.now }
{
    word_of(word).or_else(|| number_of(word))
}
