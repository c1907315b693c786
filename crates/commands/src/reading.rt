// Lines of an open session read as commands.
ghost use Rattle.std.specs.Prelude.{◌≡◌, ◌≤◌, length, IfOk, IfErr, Ok};
ghost use Rattle.commands.specs.Ahead.{ahead};
ghost use Rattle.commands.specs.Forms.{Said, form, then_known, reads, said, said_read};
ghost use Rattle.commands.specs.Refusals.{IsCommand, Refused};
ghost use Rattle.commands.specs.Spelling.{Spelt, Fair, Reading};
ghost use Rattle.commands.specs.Words.{pick, heads};

use crate::command::Command;
use crate::fault::CommandFault;
use crate::form::read_form;
use crate::word::word_of;
use crate::words::Words;

fn read_words(mut words: Words<'_>) -> Result<Command<'_>, CommandFault>
    ensures { said_read result ≡ then_known (pick heads) words.entry.line.now (ahead words.entry) (λ head ws. form head words.entry.line.now ws) }
{
    let word = words.next_word()?;
    let head = word_of(word.text).ok_or(CommandFault::Line(word.at))?;
    read_form(words, head)
}

// The command that a line of an open session says: what is read is a fair command typed out, and each fair command that is typed out is read. Another line is refused at its first wrong word.
pub fn read_command<'a>(line: &'a [u8]) -> Result<Command<'a>, CommandFault>
    ensures value { said_read result ≡ reads line.now }
    ensures spelt { IfOk result (λ x. Spelt line.now (said x)) }
    ensures accepted { (x : Said) → Fair x → Spelt line.now x → length line.now ≤ 120 → said_read result ≡ Ok x }
    ensures reading { IfOk result (λ x. Reading line.now (said x)) }
    ensures first { IfErr result (λ fault. Refused IsCommand line.now fault) }
{
    Words::of(line).and_then(read_words)
}
