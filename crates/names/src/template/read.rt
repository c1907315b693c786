// The template reader.
ghost use Rattle.std.specs.Prelude.{◌≡◌};
ghost use Rattle.names.specs.Reader.{class_of, reader, next, finish, read_shape};

use super::parts::{Class, Part, Reader, Shape};
use crate::fault::TemplateFault;

fn class(b: u8) -> Class
    ensures { result ≡ class_of b }
{
    match b {
        b'0'..=b'9' => Class::Digit,
        b'/' => Class::Slash,
        b'.' => Class::Dot,
        b'r' | b's' => Class::Order,
        b'd' => Class::Ten,
        b'e' => Class::All,
        b'k' => Class::Check,
        b'b'
        | b'c'
        | b'f'
        | b'g'
        | b'h'
        | b'j'
        | b'm'
        | b'n'
        | b'p'
        | b'q'
        | b't'
        | b'v'
        | b'w'
        | b'x'
        | b'z' => Class::Plain,
        _ => Class::Other,
    }
}

fn reading(part: Part, count: u8, shoulder: u8) -> Reader
    ensures { result ≡ reader part count shoulder }
{
    Reader {
        part,
        count,
        shoulder,
    }
}

// One byte more, which stands at the place at.
fn step(s: Reader, b: u8, at: usize) -> Result<Reader, TemplateFault>
    ensures { result ≡ next s b at }
{
    let count = s.count;
    let shoulder = s.shoulder;
    match (s.part, class(b)) {
        (Part::Naan, Class::Digit) if count < 4 => Ok(reading(Part::Naan, count + 1, shoulder)),
        (Part::Naan, Class::Digit) => Ok(reading(Part::Slash, 0, shoulder)),
        (Part::Slash, Class::Slash) => Ok(reading(Part::Shoulder, 0, shoulder)),
        (Part::Shoulder, Class::Digit | Class::Order | Class::Ten | Class::Check | Class::Plain)
            if count < 13 => { Ok(reading(Part::Shoulder, count + 1, shoulder)) }
        (Part::Shoulder, Class::Dot) if count > 0 => Ok(reading(Part::Letter, 0, count)),
        (Part::Letter, Class::Order) => Ok(reading(Part::Mask, 0, shoulder)),
        (Part::Mask, Class::Ten | Class::All) if count < 8 => Ok(reading(
            Part::Mask,
            count + 1,
            shoulder,
        )),
        (Part::Mask, Class::Check) if count > 0 => Ok(reading(Part::Closed, count, shoulder)),
        (Part::Naan | Part::Slash, _) => Err(TemplateFault::Naan(at)),
        (Part::Shoulder, _) => Err(TemplateFault::Shoulder(at)),
        (Part::Letter, _) => Err(TemplateFault::Letter(at)),
        (Part::Mask | Part::Closed, _) => Err(TemplateFault::Mask(at)),
    }
}

// What is read where a text of this length ends.
fn finished(s: Reader, len: usize) -> Result<Shape, TemplateFault>
    ensures { result ≡ finish s len }
{
    match s.part {
        Part::Mask if s.count > 0 => Ok(Shape {
            shoulder: s.shoulder,
            mask: s.count,
            check: false,
        }),
        Part::Closed => Ok(Shape {
            shoulder: s.shoulder,
            mask: s.count,
            check: true,
        }),
        _ => Err(TemplateFault::Early(len)),
    }
}

// The lengths of the parts of a template's text, or its first fault.
pub(crate) fn shape(text: &[u8]) -> Result<Shape, TemplateFault>
    ensures { result ≡ read_shape text.now }
{
    let mut s = reading(Part::Naan, 0, 0);
    for (i, b) in text.iter().enumerate() {
        s = step(s, *b, i)?;
    }
    finished(s, text.len())
}
