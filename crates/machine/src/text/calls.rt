// How a text is made, and what it gives.
ghost use Rattle.std.specs.Prelude.{◌≡◌, []};
ghost use Rattle.machine.specs.Texts.{bytes_of, fitting};
ghost use Rattle.std.specs.Option.{option_map};

use super::Text;
use texts::short::Short;

impl Text {
    // The empty text.
    pub fn new() -> Text
        ensures { bytes_of result ≡ [] }
    {
        Text {
            bytes: Short::new(),
        }
    }

    // The text of these bytes, if they are at most 40.
    pub fn read(bytes: &[u8]) -> Option<Text>
        ensures { option_map bytes_of result ≡ fitting bytes.now }
    {
        let bytes = Short::read(bytes)?;
        Some(Text { bytes })
    }

    // The bytes of the text.
    pub fn as_slice(&self) -> &[u8]
        ensures { result.now ≡ bytes_of self.now }
    {
        self.bytes.as_slice()
    }
}
