// The words of a line, one after another.
ghost use Rattle.std.specs.Prelude.{◌≡◌, ◌≤◌, length, Ok};

use crate::fault::CommandFault;
use texts::piece_end;

// The most bytes that a line may have.
const LONGEST: usize = 120;

// A word, and the place where it begins.
#[derive(Clone, Copy)]
pub(crate) struct Word<'a> {
    pub(crate) at: usize,
    pub(crate) text: &'a [u8],
}

// The words of a line from a place on; from past its end on it has none. The place is kept, and not the rest alone, since a refusal tells it.
#[derive(Drop)]
pub(crate) struct Words<'a> {
    line: &'a [u8],
    from: usize,
    ghost brief: { length line.now ≤ 120 },
}

impl<'a> Words<'a> {
    ghost use Rattle.commands.specs.Ahead.{ahead, begun, taken, left};
    ghost use Rattle.commands.specs.Forms.{next, last, rest, short};
    ghost use Rattle.commands.specs.Words.{words};

    // All words of a line, which may have at most 120 bytes.
    pub(crate) fn of(line: &'a [u8]) -> Result<Words<'a>, CommandFault>
        ensures { begun result ≡ short line.now (Ok (line.now, words 0 line.now)) }
    {
        if line.len() > LONGEST {
            return Err(CommandFault::Line(LONGEST));
        }
        Ok(Words { line, from: 0 })
    }

    // The next word, which must be there and must not be empty. Readers ask themselves what it stands for: a function over a closure would want the closure's clauses.
    pub(crate) fn next_word(&mut self) -> Result<Word<'a>, CommandFault>
        ensures word { taken result self.new ≡ next self.old.line.now (ahead self.old) }
        ensures line { self.new.line.now ≡ self.old.line.now }
    {
        let line = self.line;
        let at = self.from;
        if at > line.len() {
            return Err(CommandFault::Line(line.len()));
        }
        let to = piece_end(line, at, b' ');
        if to == at {
            return Err(CommandFault::Line(at));
        }
        self.from = to + 1;
        Ok(Word {
            at,
            text: &line[at..to],
        })
    }

    // That no word is left.
    pub(crate) fn no_word(&self) -> Result<(), CommandFault>
        ensures { result ≡ last (ahead self.now) }
    {
        if self.from <= self.line.len() {
            Err(CommandFault::Line(self.from))
        } else {
            Ok(())
        }
    }

    // All of the line from the next word on, be it empty.
    pub(crate) fn remainder(self) -> Result<&'a [u8], CommandFault>
        ensures { left result ≡ rest self.entry.line.now (ahead self.entry) }
    {
        self.line
            .get(self.from..)
            .ok_or(CommandFault::Line(self.line.len()))
    }
}
