// The forms of the commands: each reads the words after the first.
ghost use Rattle.std.specs.Prelude.{◌≡◌};
ghost use Rattle.commands.specs.Ahead.{ahead};
ghost use Rattle.commands.specs.Forms.{form, said_read};

use crate::command::Command;
use crate::fault::CommandFault;
use crate::number::{count_of, delay_of, number_of};
use crate::word::{Edit, Head, Turn, word_of};
use crate::words::Words;

fn read_mint(mut words: Words<'_>) -> Result<Command<'_>, CommandFault>
    ensures { said_read result ≡ form Head.Mint words.entry.line.now (ahead words.entry) }
{
    let word = words.next_word()?;
    let count = count_of(word.text).ok_or(CommandFault::Line(word.at))?;
    words.no_word()?;
    Ok(Command::Mint(count))
}

fn read_hold(mut words: Words<'_>) -> Result<Command<'_>, CommandFault>
    ensures { said_read result ≡ form Head.Hold words.entry.line.now (ahead words.entry) }
{
    let word = words.next_word()?;
    let turn = word_of(word.text).ok_or(CommandFault::Line(word.at))?;
    let name = words.next_word()?.text;
    words.no_word()?;
    match turn {
        Turn::Set => Ok(Command::HoldSet(name)),
        Turn::Release => Ok(Command::HoldRelease(name)),
    }
}

fn read_queue(mut words: Words<'_>) -> Result<Command<'_>, CommandFault>
    ensures { said_read result ≡ form Head.Queue words.entry.line.now (ahead words.entry) }
{
    let word = words.next_word()?;
    let seconds = delay_of(word.text).ok_or(CommandFault::Line(word.at))?;
    let name = words.next_word()?.text;
    words.no_word()?;
    Ok(Command::Queue(name, seconds))
}

fn read_tick(mut words: Words<'_>) -> Result<Command<'_>, CommandFault>
    ensures { said_read result ≡ form Head.Tick words.entry.line.now (ahead words.entry) }
{
    let word = words.next_word()?;
    let second = number_of(word.text).ok_or(CommandFault::Line(word.at))?;
    words.no_word()?;
    Ok(Command::Tick(second))
}

fn read_bind(mut words: Words<'_>) -> Result<Command<'_>, CommandFault>
    ensures { said_read result ≡ form Head.Bind words.entry.line.now (ahead words.entry) }
{
    let word = words.next_word()?;
    let edit = word_of(word.text).ok_or(CommandFault::Line(word.at))?;
    let name = words.next_word()?.text;
    let element = words.next_word()?.text;
    match edit {
        Edit::Set => {
            let text = words.remainder()?;
            Ok(Command::BindSet(name, element, word_of(element), text))
        }
        Edit::Purge => {
            words.no_word()?;
            Ok(Command::BindPurge(name, element, word_of(element)))
        }
    }
}

fn read_fetch(mut words: Words<'_>) -> Result<Command<'_>, CommandFault>
    ensures { said_read result ≡ form Head.Fetch words.entry.line.now (ahead words.entry) }
{
    let name = words.next_word()?.text;
    let word = words.next_word()?.text;
    words.no_word()?;
    Ok(Command::Fetch(name, word, word_of(word)))
}

fn read_validate(mut words: Words<'_>) -> Result<Command<'_>, CommandFault>
    ensures { said_read result ≡ form Head.Validate words.entry.line.now (ahead words.entry) }
{
    let name = words.next_word()?.text;
    words.no_word()?;
    Ok(Command::Validate(name))
}

// What a command takes after its first word.
pub(crate) fn read_form(words: Words<'_>, head: Head) -> Result<Command<'_>, CommandFault>
    ensures { said_read result ≡ form head words.entry.line.now (ahead words.entry) }
{
    match head {
        Head::Mint => read_mint(words),
        Head::Hold => read_hold(words),
        Head::Queue => read_queue(words),
        Head::Tick => read_tick(words),
        Head::Bind => read_bind(words),
        Head::Fetch => read_fetch(words),
        Head::Validate => read_validate(words),
    }
}
