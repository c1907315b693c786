// A sheet of names that a crew read back, each checked against the template.
ghost use Rattle.std.specs.Prelude.{◌≡◌};
ghost use Rattle.checklist.specs.Sheet.{counts_of, verdict_of};
ghost use Rattle.names.specs.Templates.{form};
ghost use Rattle.texts.specs.Pieces.{pieces};

use names::fault::Refusal;
use names::template::Template;
use texts::pieces::Pieces;

// How many lines were good, and how many were refused.
#[derive(Clone, Copy)]
pub struct Counts {
    pub good: usize,
    pub refused: usize,
}

// The name's number, or why the line is no name of the template.
pub fn check_name(template: &Template, line: &[u8]) -> Result<u64, Refusal>
    ensures { result ≡ verdict_of (form template.now) line.now }
{
    template.validate(line).map_err(Refusal::from)
}

// The counts over the lines of a text; one pass for both.
pub fn count_names(template: &Template, text: &[u8]) -> Counts
    ensures { result ≡ counts_of (form template.now) (pieces 10 text.now) }
{
    let mut counts = Counts {
        good: 0,
        refused: 0,
    };
    for line in Pieces::of(text, b'\n') {
        match check_name(template, line) {
            Ok(_) => counts.good += 1,
            Err(_) => counts.refused += 1,
        }
    }
    counts
}
