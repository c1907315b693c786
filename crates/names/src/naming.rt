// Names by number.
ghost use Rattle.std.specs.Prelude.{◌≡◌, ◌+◌, ◌/◌, ◌%◌, ◌^◌, ◌<◌, ◌≤◌, true, ◌++◌, length, take, drop, MatchOption};
ghost use Rattle.names.specs.Alphabet.{char_of};
ghost use Rattle.names.specs.Naming.{base, digits, ended, form_from, name_of};
ghost use Rattle.names.specs.Naming as Naming;
ghost use Rattle.names.specs.Texts.{text_of};

use super::alphabet::character;
use super::check::check_character;
use super::name::Name;
use super::parts::Parts;
use texts::short::Short;

// How many characters a mask position takes: the ten digits at d, all 29 at e.
fn base_of(position: u8) -> u64
    ensures { result ≡ base position }
{
    if position == b'd' { 10 } else { 29 }
}

// A text with its check character behind it.
fn closed(text: Short<28>) -> Short<28>
    requires { length text < 28 }
    ensures { result ≡ ended true text }
{
    let mut closed = text;
    closed.push(check_character(text.as_slice()));
    closed
}

// A number's last character at a mask position, and what is left for the positions before it. (Each arm divides by a constant.)
fn split(position: u8, n: u64) -> (u8, u64)
    ensures { (result.0 ≡ char_of (n % base position)) × (result.1 ≡ n / base position) }
{
    match position {
        b'd' => (character((n % 10) as u8), n / 10),
        _ => (character((n % 29) as u8), n / 29),
    }
}

// Writes the characters of a number, the last position's first. What is left above the positions is none where the number is below their total.
fn spell(out: &mut [u8], mask: &[u8], n: u64) -> u64
    requires { length mask.now ≤ length out.old }
    ensures above { result ≡ n / Naming.total mask.now }
    ensures digits { n < Naming.total mask.now → out.new ≡ digits mask.now n ++ drop (length mask.now) out.old }
{
    let Some((last, before)) = mask.split_last() else {
        return n;
    };
    let (c, above) = split(*last, n);
    out[before.len()] = c;
    spell(out, before, above)
}

// Writes a prefix and the characters of a number at the beginning of a text. The answer is what is left above the positions.
fn write_body(out: &mut [u8], prefix: &[u8], mask: &[u8], n: u64) -> u64
    requires { length prefix.now + length mask.now ≤ length out.old }
    ensures above { result ≡ n / Naming.total mask.now }
    ensures text { n < Naming.total mask.now → take (length prefix.now + length mask.now) out.new ≡ prefix.now ++ digits mask.now n }
{
    let (front, rest) = out.split_at_mut(prefix.len());
    front.copy_from_slice(prefix);
    spell(rest, mask, n)
}

impl Parts<'_> {
    // How many names there are. (`product` over the mask was tried and does not close: what it asks of each partial product is no bound that the map keeps.)
    pub(crate) fn total(&self) -> u64
        ensures value { result ≡ Naming.total self.now.mask.now }
        ensures small { result ≤ 29 ^ 8 }
    {
        let mut total = 1;
        for m in self.mask {
            total *= base_of(*m);
        }
        total
    }

    // Number n without its check character; none from the total on.
    fn body(&self, n: u64) -> Option<Short<28>>
        ensures { MatchOption result (Naming.total self.now.mask.now ≤ n) (λ text. (n < Naming.total self.now.mask.now) × (text ≡ self.now.prefix.now ++ digits self.now.mask.now n)) }
    {
        let mut bytes = [0; 28];
        let above = write_body(&mut bytes, self.prefix, self.mask, n);
        if above > 0 {
            return None;
        }
        Some(Short::front(&bytes[..self.prefix.len() + self.mask.len()]))
    }

    // Name number n; empty from the total on.
    pub(crate) fn name(&self, n: u64) -> Name
        ensures { text_of result ≡ name_of (form_from self.now) n }
    {
        let Some(body) = self.body(n) else {
            return Name::of(Short::new());
        };
        if self.check {
            Name::of(closed(body))
        } else {
            Name::of(body)
        }
    }
}
