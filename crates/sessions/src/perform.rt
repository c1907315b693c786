// What a command does to the register, and the lines that report it.
ghost use Rattle.std.specs.Prelude.{◌≡◌, true, [], ◌∷◌, is_some, Some, None};
ghost use Rattle.commands.specs.Forms.{fetch, said, validate};
ghost use Rattle.machine.specs.Calls.{asked};
ghost use Rattle.minter.specs.Meaning.{meaning};
ghost use Rattle.machine.specs.Runs.{Sound};
ghost use Rattle.reports.specs.Reports.{line, told};
ghost use Rattle.texts.specs.Output.{Puts};
ghost use Rattle.sessions.specs.Lends.{Lends};
ghost use Rattle.sessions.specs.Performing.{told_of, minted_by, fault_of, mints, by_calls, performed, Did};

use commands::command::Command;
use machine::call::{Answer, Call};
use machine::fault::RegisterFault;
use machine::text::Text;
use minter::register::Register;
use reports::{Report, write_report};
use sources::source::Source;
use stores::store::Store;
use stores::text::{Element, TextKey};
use texts::output::Output;

// What a command did: how many names it minted, and why it was refused, if it was; no Result, since a mint that is refused has minted the names before it.
#[derive(Clone, Copy)]
pub struct Done {
    pub minted: u64,
    pub fault: Option<RegisterFault>,
}

// Reports what was done; no name was minted.
fn report(out: &mut Output<'_>, report: Report<'_>) -> Done
    ensures text { Puts out.old (line (told report.entry)) out.new }
    ensures done { result ≡ record { minted = 0; fault = None } }
{
    write_report(out, report);
    Done {
        minted: 0,
        fault: None,
    }
}

fn refused(why: RegisterFault) -> Done
    ensures { result ≡ record { minted = 0; fault = Some why } }
{
    Done {
        minted: 0,
        fault: Some(why),
    }
}

// Reports an answer of the register; a refusal gives no line here.
fn tell<S: Source, T: Store<TextKey, Text>>(
    register: &Register<S, T>,
    answer: Answer,
    word: &[u8],
    out: &mut Output<'_>,
) -> Done
    ensures text { Puts out.old (told_of (meaning S.Source.stock T.Store.pairs T.Store.capacity register.now).source.named word.now answer) out.new }
    ensures minted { result.minted ≡ minted_by answer }
    ensures fault { result.fault ≡ fault_of answer }
{
    match answer {
        Answer::Minted(n) => Done {
            minted: 1,
            ..report(out, Report::Minted(register.name(n).as_slice()))
        },
        Answer::Held(n) => report(out, Report::Held(register.name(n).as_slice())),
        Answer::Released(n) => report(out, Report::Released(register.name(n).as_slice())),
        Answer::Queued(n) => report(out, Report::Queued(register.name(n).as_slice())),
        Answer::Ticked(second) => report(out, Report::Clock(second)),
        Answer::Bound(n) => report(out, Report::Bound(register.name(n).as_slice(), word)),
        Answer::Purged(n) => report(out, Report::Purged(register.name(n).as_slice(), word)),
        Answer::Refused(why) => refused(why),
    }
}

// Puts a call to the register, and reports its answer.
fn ask<S: Source, T: Store<TextKey, Text>>(
    register: &mut Register<S, T>,
    call: Call<'_>,
    word: &[u8],
    out: &mut Output<'_>,
) -> Done
    ensures did { Sound (meaning S.Source.stock T.Store.pairs T.Store.capacity register.old) → T.Store.sound register.old.texts → Did (by_calls (meaning S.Source.stock T.Store.pairs T.Store.capacity register.old) word.now (asked call.entry ∷ [])) (meaning S.Source.stock T.Store.pairs T.Store.capacity register.new) out.old out.new result }
    ensures refusal { Sound (meaning S.Source.stock T.Store.pairs T.Store.capacity register.old) → T.Store.sound register.old.texts → is_some result.fault ≡ true → register.new ≡ register.old }
    ensures store { T.Store.sound register.old.texts → T.Store.sound register.new.texts }
    ensures sound { Sound (meaning S.Source.stock T.Store.pairs T.Store.capacity register.old) → T.Store.sound register.old.texts → Sound (meaning S.Source.stock T.Store.pairs T.Store.capacity register.new) }
    ensures lends { Lends out.old out.new }
{
    let answer = register.serve(&call);
    tell(register, answer, word, out)
}

// Mints so many names, and none after a refused mint.
fn mint_names<S: Source, T: Store<TextKey, Text>>(
    register: &mut Register<S, T>,
    count: u64,
    out: &mut Output<'_>,
) -> Done
    ensures did { Sound (meaning S.Source.stock T.Store.pairs T.Store.capacity register.old) → T.Store.sound register.old.texts → Did (by_calls (meaning S.Source.stock T.Store.pairs T.Store.capacity register.old) [] (mints count (meaning S.Source.stock T.Store.pairs T.Store.capacity register.old))) (meaning S.Source.stock T.Store.pairs T.Store.capacity register.new) out.old out.new result }
    ensures refusal { Sound (meaning S.Source.stock T.Store.pairs T.Store.capacity register.old) → T.Store.sound register.old.texts → is_some result.fault ≡ true → result.minted ≡ 0 → register.new ≡ register.old }
    ensures store { T.Store.sound register.old.texts → T.Store.sound register.new.texts }
    ensures sound { Sound (meaning S.Source.stock T.Store.pairs T.Store.capacity register.old) → T.Store.sound register.old.texts → Sound (meaning S.Source.stock T.Store.pairs T.Store.capacity register.new) }
    ensures lends { Lends out.old out.new }
{
    for i in 0..count {
        let one = ask(register, Call::Mint, b"", out);
        if one.fault.is_some() {
            return Done {
                minted: i,
                fault: one.fault,
            };
        }
    }
    Done {
        minted: count,
        fault: None,
    }
}

// Reports the text under a name and an element.
fn fetch_text<S: Source, T: Store<TextKey, Text>>(
    register: &Register<S, T>,
    name: &[u8],
    word: &[u8],
    element: Option<Element>,
    out: &mut Output<'_>,
) -> Done
    ensures did { T.Store.sound register.now.texts → Did (performed (meaning S.Source.stock T.Store.pairs T.Store.capacity register.now) (fetch name.now word.now element)) (meaning S.Source.stock T.Store.pairs T.Store.capacity register.now) out.old out.new result }
    ensures lends { Lends out.old out.new }
{
    let mut text = Text::new();
    match register.fetch(name, element, &mut text) {
        Ok(n) => {
            let name = register.name(n);
            report(out, Report::Fetched(name.as_slice(), word, text.as_slice()))
        }
        Err(why) => refused(why),
    }
}

// Reports whether a text is a name of the template.
fn validate_name<S: Source, T: Store<TextKey, Text>>(
    register: &Register<S, T>,
    name: &[u8],
    out: &mut Output<'_>,
) -> Done
    ensures did { Did (performed (meaning S.Source.stock T.Store.pairs T.Store.capacity register.now) (validate name.now)) (meaning S.Source.stock T.Store.pairs T.Store.capacity register.now) out.old out.new result }
    ensures lends { Lends out.old out.new }
{
    match register.validate(name) {
        Ok(n) => report(out, Report::Valid(register.name(n).as_slice())),
        Err(why) => refused(why),
    }
}

// Performs a command: what it asks is put to the register, and reported.
pub fn perform<S: Source, T: Store<TextKey, Text>>(
    register: &mut Register<S, T>,
    command: Command<'_>,
    out: &mut Output<'_>,
) -> Done
    ensures did { Sound (meaning S.Source.stock T.Store.pairs T.Store.capacity register.old) → T.Store.sound register.old.texts → Did (performed (meaning S.Source.stock T.Store.pairs T.Store.capacity register.old) (said command.entry)) (meaning S.Source.stock T.Store.pairs T.Store.capacity register.new) out.old out.new result }
    ensures refusal { Sound (meaning S.Source.stock T.Store.pairs T.Store.capacity register.old) → T.Store.sound register.old.texts → is_some result.fault ≡ true → result.minted ≡ 0 → register.new ≡ register.old }
    ensures store { T.Store.sound register.old.texts → T.Store.sound register.new.texts }
    ensures sound { Sound (meaning S.Source.stock T.Store.pairs T.Store.capacity register.old) → T.Store.sound register.old.texts → Sound (meaning S.Source.stock T.Store.pairs T.Store.capacity register.new) }
    ensures lends { Lends out.old out.new }
{
    match command {
        Command::Mint(count) => mint_names(register, count, out),
        Command::HoldSet(name) => ask(register, Call::Hold(name), b"", out),
        Command::HoldRelease(name) => ask(register, Call::Release(name), b"", out),
        Command::Queue(name, delay) => ask(register, Call::Queue(name, delay), b"", out),
        Command::Tick(second) => ask(register, Call::Tick(second), b"", out),
        Command::BindSet(name, word, element, text) => {
            ask(register, Call::Bind(name, element, text), word, out)
        }
        Command::BindPurge(name, word, element) => {
            ask(register, Call::Purge(name, element), word, out)
        }
        Command::Fetch(name, word, element) => fetch_text(register, name, word, element, out),
        Command::Validate(name) => validate_name(register, name, out),
    }
}
