// How a name is made, and what it gives.
ghost use Rattle.std.specs.Prelude.{◌≡◌, ◌≤◌, length, Some};
ghost use Rattle.names.specs.Texts.{text_of};

use super::Name;
use std::fmt;
use texts::short::Short;

impl Name {
    // The name that a text is.
    pub(crate) fn of(text: Short<28>) -> Name
        requires { length text ≤ 28 }
        ensures { text_of result ≡ text }
    {
        Name { text }
    }

    // The bytes of the name.
    pub fn as_slice(&self) -> &[u8]
        ensures { result.now ≡ text_of self.now }
    {
        self.text.as_slice()
    }
}

// Its bytes are characters of the template's text and of the 29, so the error is never met.
impl fmt::Display for Name {
    ghost output = { λ x. Some (text_of x) };

    fn fmt<W: fmt::Write>(&self, f: &mut fmt::Formatter<W>) -> fmt::Result {
        let text = std::str::from_utf8(self.as_slice()).map_err(|_| fmt::Error)?;
        f.write_str(text)
    }
}
