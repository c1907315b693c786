// A whole input answered: what the program calls.
ghost use Rattle.std.specs.Prelude.{◌≡◌, ◌+◌, ◌*◌, ◌<◌, ◌≤◌, true, [], length, is_ok, IfOk, OnOk};
ghost use Rattle.names.specs.Templates.{form};
ghost use Rattle.sessions.specs.Opening.{new_desk};
ghost use Rattle.texts.specs.Output.{Puts};
ghost use Rattle.texts.specs.Pieces.{pieces};
ghost use Rattle.serving.specs.Ruling.{Ruled, RuledBy, RuledInput};
ghost use Rattle.serving.specs.Serving.{awaited, open_desk, open_text, session_text, unread, report, needed, served_answer, served_buffer};

use crate::lines::answer_lines;
use crate::memory::Memory;
use crate::opening::find_opening;
use chains::Chain;
use chains::format::format;
use commands::fault::CommandFault;
use logs::Log;
use machine::text::Text;
use minter::register::{Register, Room};
use sessions::line::{FREE, write_fault};
use sessions::opening::Entered;
use sources::chooser::ByLetter;
use sources::generator::Generator;
use std::alloc::{AllocError, Global};
use stores::store::Store;
use stores::tally::TallyKey;
use stores::text::TextKey;
use texts::output::Output;
use texts::pieces::Pieces;

// The most bytes that an input may have.
const LONGEST: usize = 32_768;

// The session that an opening line opened: the lines that are left, and the end.
fn serve_open<T: Store<TextKey, Text> + Drop, U: Store<TallyKey, u64>>(
    room: Room,
    texts: T,
    tallies: &mut U,
    entered: Entered,
    lines: Pieces<'_>,
    out: &mut Output<'_>,
)
    requires store { T.Store.sound texts }
    requires empty { T.Store.pairs texts ≡ [] }
    requires places { T.Store.capacity texts ≡ 512 }
    requires tallies { U.Store.sound tallies.old }
    requires fresh { entered.session.minted ≡ 0 }
    requires room { out.old.fill + 4096 * (length lines + 1) ≤ length out.old.bytes.now }
    ensures text { Puts out.old (open_text (open_desk (new_desk U.Store.pairs U.Store.capacity tallies.old entered.session.lines) (form entered.template)) lines.entry) out.new }
    ensures whole { out.new.fill < length out.new.bytes.now }
    ensures ruled { Ruled (new_desk U.Store.pairs U.Store.capacity tallies.old entered.session.lines) (form entered.template) lines.entry }
{
    let Entered { session, template } = entered;
    let source = Generator::new(ByLetter::of(&template), template);
    let mut register = Register::open(room, source, texts);
    let session = answer_lines(session, &mut register, tallies, lines, out);
    session.end(tallies, out).unwrap().close();
}

// A session over a store for texts and one for tallies, both with no pair.
fn serve_session<T: Store<TextKey, Text> + Drop, U: Store<TallyKey, u64>>(
    room: Room,
    texts: T,
    tallies: &mut U,
    input: &[u8],
    out: &mut Output<'_>,
)
    requires store { T.Store.sound texts }
    requires empty { T.Store.pairs texts ≡ [] }
    requires places { T.Store.capacity texts ≡ 512 }
    requires tallies { U.Store.sound tallies.old }
    requires room { out.old.fill + 4096 * (length (pieces 10 input.now) + 1) ≤ length out.old.bytes.now }
    ensures text { Puts out.old (session_text (new_desk U.Store.pairs U.Store.capacity tallies.old 0) (pieces 10 input.now)) out.new }
    ensures whole { out.new.fill < length out.new.bytes.now }
    ensures ruled { RuledBy (awaited (new_desk U.Store.pairs U.Store.capacity tallies.old 0) (pieces 10 input.now)) (awaited (new_desk U.Store.pairs U.Store.capacity tallies.old 0) (pieces 10 input.now)).form }
{
    match find_opening(tallies, input, out) {
        Ok((entered, lines)) => serve_open(room, texts, tallies, entered, lines, out),
        Err(session) => {
            session.leave();
        }
    }
}

// A whole input, into an output that has room for its reports.
fn serve_input(memory: Memory, input: &[u8], out: &mut Output<'_>)
    requires room { out.old.fill + needed input.now ≤ length out.old.bytes.now }
    ensures text { Puts out.old (report input.now) out.new }
    ensures whole { out.new.fill < length out.new.bytes.now }
    ensures ruled { length input.now ≤ 32768 → RuledInput input.now }
{
    if input.len() > LONGEST {
        return write_fault(0, CommandFault::Input, out);
    }
    let Memory {
        room,
        mut nodes,
        mut entries,
    } = memory;
    let records = nodes.as_mut_slice();
    format(records).unwrap();
    let texts = Chain::over(records);
    let mut tallies = Log::over(entries.as_mut_slice());
    serve_session(room, texts, &mut tallies, input, out);
}

// How many bytes an output must have: 4,096 for each line and the end. An input that is too long has no line.
fn bytes_needed(input: &[u8]) -> usize
    ensures { result ≡ needed input.now }
{
    let lines = if input.len() > LONGEST {
        0
    } else {
        Pieces::of(input, b'\n').count()
    };
    FREE * (lines + 1)
}

// Answers a whole input in memory that was reserved before: the reports fill the buffer from its start on. Each line and the end must
// find 4,096 bytes free; where the buffer is too short for that, nothing is written.
pub fn serve_in(memory: Memory, input: &[u8], out: &mut [u8]) -> Result<usize, CommandFault>
    ensures answer { result ≡ served_answer input.now out.old }
    ensures buffer { out.new ≡ served_buffer input.now out.old }
    ensures ruled { is_ok result ≡ true → length input.now ≤ 32768 → RuledInput input.now }
{
    let mut out = Output::over(out);
    if out.free() < bytes_needed(input) {
        return Err(CommandFault::Output);
    }
    serve_input(memory, input, &mut out);
    Ok(out.fill)
}

// Answers a whole input. All memory is reserved before the first line.
pub fn serve(heap: Global, input: &[u8]) -> Result<Vec<u8>, AllocError>
    ensures report { IfOk result (λ v. v.items ≡ report input.now) }
    ensures ruled { OnOk result ((length input.now ≤ 32768 → RuledInput input.now)) }
{
    let mut out = vec![in heap; 0u8; bytes_needed(input)]?;
    let memory = Memory::new(heap)?;
    let fill = serve_in(memory, input, out.as_mut_slice()).unwrap();
    out.truncate(fill);
    Ok(out)
}
