// Reports: the lines of output that answer a session's lines and its end.
#![tactic(auto)]

ghost use Rattle.std.specs.Prelude.{◌∷◌, map};
ghost use Rattle.texts.specs.Output.{Puts};
ghost use Rattle.reports.specs.Fields.{field_text};
ghost use Rattle.reports.specs.Reports.{spaced, line, told};

use names::fault::Refusal;
use texts::output::Output;

// What a line of output tells.
#[derive(Clone, Copy)]
pub enum Report<'a> {
    // the template and its total
    Template(&'a [u8], u64),
    // the name
    Minted(&'a [u8]),
    // the second
    Clock(u64),
    // the name
    Held(&'a [u8]),
    Released(&'a [u8]),
    Queued(&'a [u8]),
    Valid(&'a [u8]),
    // the name and the element word
    Bound(&'a [u8], &'a [u8]),
    Purged(&'a [u8], &'a [u8]),
    // the name, the element word and the text
    Fetched(&'a [u8], &'a [u8], &'a [u8]),
    // the line's number, counted from 1
    Refused(u64, Refusal),
    // the refusal's number and how many lines met it
    Tally(u8, u64),
    // how many names were minted
    Total(u64),
}

// What follows a line's head: a word, or a count in decimal.
#[derive(Clone, Copy)]
enum Field<'a> {
    Word(&'a [u8]),
    Count(u64),
}

fn put_field(out: &mut Output<'_>, field: Field<'_>)
    ensures { Puts out.old (field_text field.entry) out.new }
{
    match field {
        Field::Word(word) => out.put(word),
        Field::Count(n) => out.put_number(n),
    }
}

// A line of a head and of fields after it.
fn put_line(out: &mut Output<'_>, head: &[u8], fields: &[Field<'_>])
    ensures { Puts out.old (spaced (head.now ∷ map field_text fields.now)) out.new }
{
    out.put(head);
    for field in fields {
        out.put(b" ");
        put_field(out, *field);
    }
    out.put(b"\n");
}

// The report's line from the fill on, as far as there is room.
// No Display: words are bytes and no text, and a contract of `write!` says nothing where it fails, which a put never does.
pub fn write_report(out: &mut Output<'_>, report: Report<'_>)
    ensures { Puts out.old (line (told report.entry)) out.new }
{
    use Field::{Count, Word};
    match report {
        Report::Template(text, total) => put_line(out, b"template", &[Word(text), Count(total)]),
        Report::Minted(name) => put_line(out, b"minted", &[Word(name)]),
        Report::Clock(second) => put_line(out, b"clock", &[Count(second)]),
        Report::Held(name) => put_line(out, b"held", &[Word(name)]),
        Report::Released(name) => put_line(out, b"released", &[Word(name)]),
        Report::Queued(name) => put_line(out, b"queued", &[Word(name)]),
        Report::Valid(name) => put_line(out, b"valid", &[Word(name)]),
        Report::Bound(name, element) => put_line(out, b"bound", &[Word(name), Word(element)]),
        Report::Purged(name, element) => put_line(out, b"purged", &[Word(name), Word(element)]),
        Report::Fetched(name, element, text) => {
            put_line(out, b"fetched", &[Word(name), Word(element), Word(text)])
        }
        Report::Refused(at, refusal) => {
            let number = u64::from(refusal.number);
            let place = refusal.place as u64;
            put_line(out, b"refused", &[Count(at), Count(number), Count(place)])
        }
        Report::Tally(number, count) => {
            put_line(out, b"tally", &[Count(u64::from(number)), Count(count)])
        }
        Report::Total(count) => put_line(out, b"minted", &[Count(count)]),
    }
}
