// The opening line of a session.
ghost use Rattle.std.specs.Prelude.{◌≡◌, ℕ, ◌≤◌, List, [], ◌∷◌, length, codes, IfOk, IfErr, Ok};
ghost use Rattle.commands.specs.Ahead.{ahead};
ghost use Rattle.commands.specs.Forms.{then_known, then_word, done, opens, template_read};
ghost use Rattle.commands.specs.Refusals.{IsOpening, Refused};
ghost use Rattle.commands.specs.Spelling.{Opened, Worded, with_spaces};
ghost use Rattle.commands.specs.Words.{pick, openings};

use crate::fault::CommandFault;
use crate::word::{Opening, word_of};
use crate::words::Words;

fn read_template<'a>(mut words: Words<'a>) -> Result<&'a [u8], CommandFault>
    ensures { template_read result ≡ then_known (pick openings) words.entry.line.now (ahead words.entry) (λ _ ws. then_word words.entry.line.now ws (λ template ws. done ws template.text)) }
{
    let word = words.next_word()?;
    let Opening::Template = word_of(word.text).ok_or(CommandFault::Line(word.at))?;
    let template = words.next_word()?.text;
    words.no_word()?;
    Ok(template)
}

// The template that the opening line of a session gives.
pub fn read_opening<'a>(line: &'a [u8]) -> Result<&'a [u8], CommandFault>
    ensures value { template_read result ≡ opens line.now }
    ensures spelt { IfOk result (λ x. line.now ≡ with_spaces (codes "template" ∷ x.now ∷ [])) }
    ensures accepted { (x : List ℕ) → Worded x → line.now ≡ with_spaces (codes "template" ∷ x ∷ []) → length line.now ≤ 120 → template_read result ≡ Ok x }
    ensures reading { IfOk result (λ x. Opened line.now x.now) }
    ensures first { IfErr result (λ fault. Refused IsOpening line.now fault) }
{
    Words::of(line).and_then(read_template)
}
