// What a source is.
ghost use Rattle.std.specs.Prelude.{◌≡◌, length};
ghost use Rattle.names.specs.Texts.{text_of};
ghost use Rattle.sources.specs.Lists.{first};
ghost use Rattle.sources.specs.Stock.{Stock, Lawful, drawn};

use names::fault::NameFault;
use names::name::Name;

// Where a number stands: in the list of numbers to come, among the given ones, or in neither.
#[derive(Clone, Copy, PartialEq, Eq, Debug)]
pub enum Stand {
    Ahead,
    Given,
    Foreign,
}

pub trait Source {
    // what the source means: its list, where each number stands, and the naming
    ghost stock: { Self → Stock };

    // what each source must prove of its meaning
    ghost lawful: { (s : Self) → Lawful (stock s) };

    // The first number of the list, which is given from then on; none from an empty list.
    fn draw(&mut self) -> Option<u64>
        ensures answer { result ≡ first (stock self.old).ahead }
        ensures after { stock self.new ≡ drawn (stock self.old) };

    // Where n stands.
    fn stand(&self, n: u64) -> Stand
        ensures { result ≡ (stock self.now).stands n };

    // How many numbers are to come.
    fn left(&self) -> u64
        ensures { result ≡ length (stock self.now).ahead };

    // The name of n.
    fn name(&self, n: u64) -> Name
        ensures { text_of result ≡ (stock self.now).named n };

    // The number whose name a bare text is, or why it is none.
    fn validate(&self, text: &[u8]) -> Result<u64, NameFault>
        ensures { result ≡ (stock self.now).reads text.now };
}
