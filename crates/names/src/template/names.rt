// The names of a template: how many, by number, and back.
ghost use Rattle.std.specs.Prelude.{◌≡◌, ◌^◌, ◌≤◌};
ghost use Rattle.names.specs.Guard.{Undo, Guard};
ghost use Rattle.names.specs.Naming as Naming;
ghost use Rattle.names.specs.Naming.{name_of};
ghost use Rattle.names.specs.Templates.{form};
ghost use Rattle.names.specs.Texts.{text_of};
ghost use Rattle.names.specs.Validate.{reads};

use super::Template;
use crate::fault::NameFault;
use crate::name::Name;

impl Template {
    // How many names there are.
    pub fn total(&self) -> u64
        ensures value { result ≡ Naming.total (form self.now).mask }
        ensures small { result ≤ 29 ^ 8 }
    {
        self.parts().total()
    }

    // Name number n; empty from the total on.
    pub fn name(&self, n: u64) -> Name
        ensures value { text_of result ≡ name_of (form self.now) n }
        ensures undo { Undo (form self.now) }
    {
        self.parts().name(n)
    }

    // The number of the name that a text is, or why it is none: its length, its first wrong byte, its check character.
    pub fn validate(&self, text: &[u8]) -> Result<u64, NameFault>
        ensures value { result ≡ reads (form self.now) text.now }
        ensures guard { Guard (form self.now) }
    {
        self.parts().validate(text)
    }
}
