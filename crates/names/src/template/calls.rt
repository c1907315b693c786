// What a template gives.
ghost use Rattle.std.specs.Prelude.{◌≡◌, ◌==◌};
ghost use Rattle.names.specs.Forms.{spelled};
ghost use Rattle.names.specs.Grammar.{Exact};
ghost use Rattle.names.specs.Reader.{read_template};
ghost use Rattle.names.specs.Templates.{form, told};

use super::Template;
use super::read::shape;
use crate::fault::TemplateFault;
use crate::parts::Parts;
use texts::short::Short;

impl Template {
    // The template that a text is, or the first fault of the text.
    pub fn read(text: &[u8]) -> Result<Template, TemplateFault>
        ensures answer { told result ≡ read_template text.now }
        ensures exact { Exact text.now (told result) }
    {
        let shape = shape(text)?;
        let kept = Short::front(text);
        Ok(Template { text: kept, shape })
    }

    // The text as it was read.
    pub fn text(&self) -> &[u8]
        ensures { result.now ≡ spelled (form self.now) }
    {
        self.text.as_slice()
    }

    // Whether the letter is r, and not s.
    pub fn scrambled(&self) -> bool
        ensures { result ≡ ((form self.now).letter == 114) }
    {
        let text = self.text.as_slice();
        text[7 + self.shape.shoulder as usize] == b'r'
    }

    // Whether the names end in a check character.
    pub fn checked(&self) -> bool
        ensures { result ≡ (form self.now).check }
    {
        self.shape.check
    }

    // What the names are made of.
    pub(crate) fn parts(&self) -> Parts<'_>
        ensures prefix { result.prefix.now ≡ (form self.now).prefix }
        ensures mask { result.mask.now ≡ (form self.now).mask }
        ensures check { result.check ≡ (form self.now).check }
    {
        let text = self.text.as_slice();
        let dot = 6 + self.shape.shoulder as usize;
        let mask = dot + 2;
        let end = mask + self.shape.mask as usize;
        Parts {
            prefix: &text[..dot],
            mask: &text[mask..end],
            check: self.shape.check,
        }
    }
}
