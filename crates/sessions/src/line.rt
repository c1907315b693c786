// Command lines of an open session.
ghost use Rattle.std.specs.Prelude.{◌≡◌, ◌-◌, ◌<◌, ◌≤◌, true, false, ◌||◌, length, is_ok, OnOk, Ok, nat_le, nat_lt};
ghost use Rattle.commands.specs.Faults.{command_refusal};
ghost use Rattle.commands.specs.Forms.{reads, said, said_read};
ghost use Rattle.minter.specs.Meaning.{meaning};
ghost use Rattle.machine.specs.Runs.{Sound};
ghost use Rattle.reports.specs.Reports.{line as bytes_of_line, refused};
ghost use Rattle.texts.specs.Output.{Puts};
ghost use Rattle.sessions.specs.Lends.{Lends};
ghost use Rattle.sessions.specs.Frames.{desk, heard, roomy, admitted, framed, answered, Within, Replied};
ghost use Rattle.sessions.specs.Performing.{performed};
ghost use Rattle.sessions.specs.Tallies.{tallies_in, tallied};

use crate::perform::perform;
use crate::session::OpenSession;
use commands::command::Command;
use commands::fault::CommandFault;
use commands::reading::read_command;
use machine::text::Text;
use minter::register::Register;
use names::fault::Refusal;
use reports::{Report, write_report};
use sources::source::Source;
use stores::store::Store;
use stores::tally::{TallyKey, raise};
use stores::text::TextKey;
use texts::output::Output;

// How many lines a session counts, and how many bytes a line must find free for its output.
const LINES: u64 = 65_535;

pub const FREE: usize = 4096;

// The session after a line, and why it was refused, if it was; no Result, since the session goes on in both cases.
pub struct Reply {
    pub session: OpenSession,
    pub fault: Option<CommandFault>,
}

// That a line or an end finds room for its output.
pub(crate) fn find_room(out: &Output<'_>) -> Result<(), CommandFault>
    ensures { result ≡ roomy (length out.now.bytes.now - out.now.fill) }
{
    if out.free() < FREE {
        return Err(CommandFault::Output);
    }
    Ok(())
}

// That a session that has counted so many lines may count one more, which finds room for its output.
pub(crate) fn admit(lines: u64, out: &Output<'_>) -> Result<(), CommandFault>
    ensures answer { result ≡ admitted (length out.now.bytes.now - out.now.fill) lines }
    ensures few { OnOk result (lines < 65535) }
{
    if lines >= LINES {
        return Err(CommandFault::Lines);
    }
    find_room(out)
}

// Tallies a refusal, where the store takes it.
fn tally<U: Store<TallyKey, u64>>(tallies: &mut U, fault: CommandFault)
    ensures after { U.Store.sound tallies.old → tallies_in (U.Store.pairs tallies.new) (U.Store.capacity tallies.new) ≡ tallied (command_refusal fault).number (tallies_in (U.Store.pairs tallies.old) (U.Store.capacity tallies.old)) }
    ensures sound { U.Store.sound tallies.old → U.Store.sound tallies.new }
{
    let number = Refusal::from(fault).number;
    let _ = raise(tallies, TallyKey { number });
}

// The report line of a fault, under the number of its line.
pub fn write_fault(lines: u64, fault: CommandFault, out: &mut Output<'_>)
    ensures text { Puts out.old (bytes_of_line (refused lines (command_refusal fault).number (command_refusal fault).place)) out.new }
    ensures brief { length (bytes_of_line (refused lines (command_refusal fault).number (command_refusal fault).place)) ≤ 71 }
{
    write_report(out, Report::Refused(lines, Refusal::from(fault)))
}

// Refuses a line: its tally, and its report line.
pub(crate) fn refuse<U: Store<TallyKey, u64>>(
    lines: u64,
    fault: CommandFault,
    tallies: &mut U,
    out: &mut Output<'_>,
)
    ensures text { Puts out.old (bytes_of_line (refused lines (command_refusal fault).number (command_refusal fault).place)) out.new }
    ensures after { U.Store.sound tallies.old → tallies_in (U.Store.pairs tallies.new) (U.Store.capacity tallies.new) ≡ tallied (command_refusal fault).number (tallies_in (U.Store.pairs tallies.old) (U.Store.capacity tallies.old)) }
    ensures sound { U.Store.sound tallies.old → U.Store.sound tallies.new }
    ensures brief { length (bytes_of_line (refused lines (command_refusal fault).number (command_refusal fault).place)) ≤ 71 }
{
    tally(tallies, fault);
    write_fault(lines, fault, out);
}

// Performs the command of a line that was counted.
fn hear<S: Source, T: Store<TextKey, Text>, U: Store<TallyKey, u64>>(
    session: OpenSession,
    register: &mut Register<S, T>,
    tallies: &mut U,
    command: Command<'_>,
    out: &mut Output<'_>,
) -> Reply
    ensures replied { Sound (meaning S.Source.stock T.Store.pairs T.Store.capacity register.old) → T.Store.sound register.old.texts → U.Store.sound tallies.old → Replied (heard (desk S.Source.stock T.Store.pairs T.Store.capacity U.Store.pairs U.Store.capacity register.old tallies.old session) (Ok (said command.entry))) (desk S.Source.stock T.Store.pairs T.Store.capacity U.Store.pairs U.Store.capacity register.new tallies.new result.session) out.old out.new result }
    ensures store { T.Store.sound register.old.texts → T.Store.sound register.new.texts }
    ensures tallies { U.Store.sound tallies.old → U.Store.sound tallies.new }
    ensures sound { Sound (meaning S.Source.stock T.Store.pairs T.Store.capacity register.old) → T.Store.sound register.old.texts → Sound (meaning S.Source.stock T.Store.pairs T.Store.capacity register.new) }
    ensures lends { Lends out.old out.new }
    ensures brief { Sound (meaning S.Source.stock T.Store.pairs T.Store.capacity register.old) → T.Store.sound register.old.texts → length (performed (meaning S.Source.stock T.Store.pairs T.Store.capacity register.old) (said command.entry)).text ≤ 4000 → length (heard (desk S.Source.stock T.Store.pairs T.Store.capacity U.Store.pairs U.Store.capacity register.old tallies.old session) (Ok (said command.entry))).text ≤ 4096 }
{
    let OpenSession { lines, minted } = session;
    let done = perform(register, command, out);
    let session = OpenSession {
        lines,
        minted: minted.saturating_add(done.minted),
    };
    let fault = done.fault.map(CommandFault::from);
    if let Some(fault) = fault {
        refuse(lines, fault, tallies, out);
    }
    Reply { session, fault }
}

impl OpenSession {
    // Counts a line that was read, or was not, and answers it. Line 65,536, and a line that finds too few bytes free, are not even counted.
    // Register, tallies and output are parameters: a struct of the loans would want clauses, in each contract, that each loan stays the same.
    pub fn frame<S: Source, T: Store<TextKey, Text>, U: Store<TallyKey, u64>>(
        self,
        register: &mut Register<S, T>,
        tallies: &mut U,
        read: Result<Command<'_>, CommandFault>,
        out: &mut Output<'_>,
    ) -> Reply
        ensures replied { Sound (meaning S.Source.stock T.Store.pairs T.Store.capacity register.old) → T.Store.sound register.old.texts → U.Store.sound tallies.old → Replied (framed (length out.old.bytes.now - out.old.fill) (desk S.Source.stock T.Store.pairs T.Store.capacity U.Store.pairs U.Store.capacity register.old tallies.old self) (said_read read.entry)) (desk S.Source.stock T.Store.pairs T.Store.capacity U.Store.pairs U.Store.capacity register.new tallies.new result.session) out.old out.new result }
        ensures unheard { (nat_le 65535 self.lines || nat_lt (length out.old.bytes.now - out.old.fill) 4096) ≡ true → (register.new ≡ register.old) × (tallies.new ≡ tallies.old) × (out.new ≡ out.old) × (result.session ≡ self) }
        ensures unread { is_ok (said_read read.entry) ≡ false → register.new ≡ register.old }
        ensures store { T.Store.sound register.old.texts → T.Store.sound register.new.texts }
        ensures tallies { U.Store.sound tallies.old → U.Store.sound tallies.new }
        ensures sound { Sound (meaning S.Source.stock T.Store.pairs T.Store.capacity register.old) → T.Store.sound register.old.texts → Sound (meaning S.Source.stock T.Store.pairs T.Store.capacity register.new) }
        ensures lends { Lends out.old out.new }
        ensures brief { Sound (meaning S.Source.stock T.Store.pairs T.Store.capacity register.old) → T.Store.sound register.old.texts → Within (meaning S.Source.stock T.Store.pairs T.Store.capacity register.old) (said_read read.entry) → length (framed (length out.old.bytes.now - out.old.fill) (desk S.Source.stock T.Store.pairs T.Store.capacity U.Store.pairs U.Store.capacity register.old tallies.old self) (said_read read.entry)).text ≤ 4096 }
    {
        if let Err(fault) = admit(self.lines, out) {
            return Reply {
                session: self,
                fault: Some(fault),
            };
        }
        let OpenSession { lines, minted } = self;
        let lines = lines + 1;
        let session = OpenSession { lines, minted };
        match read {
            Ok(command) => hear(session, register, tallies, command, out),
            Err(fault) => {
                refuse(lines, fault, tallies, out);
                Reply {
                    session,
                    fault: Some(fault),
                }
            }
        }
    }

    // Answers a command line.
    pub fn line<S: Source, T: Store<TextKey, Text>, U: Store<TallyKey, u64>>(
        self,
        register: &mut Register<S, T>,
        tallies: &mut U,
        text: &[u8],
        out: &mut Output<'_>,
    ) -> Reply
        ensures replied { Sound (meaning S.Source.stock T.Store.pairs T.Store.capacity register.old) → T.Store.sound register.old.texts → U.Store.sound tallies.old → Replied (answered (length out.old.bytes.now - out.old.fill) (desk S.Source.stock T.Store.pairs T.Store.capacity U.Store.pairs U.Store.capacity register.old tallies.old self) text.now) (desk S.Source.stock T.Store.pairs T.Store.capacity U.Store.pairs U.Store.capacity register.new tallies.new result.session) out.old out.new result }
        ensures unheard { (nat_le 65535 self.lines || nat_lt (length out.old.bytes.now - out.old.fill) 4096) ≡ true → (register.new ≡ register.old) × (tallies.new ≡ tallies.old) × (out.new ≡ out.old) × (result.session ≡ self) }
        ensures unread { is_ok (reads text.now) ≡ false → register.new ≡ register.old }
        ensures store { T.Store.sound register.old.texts → T.Store.sound register.new.texts }
        ensures tallies { U.Store.sound tallies.old → U.Store.sound tallies.new }
        ensures sound { Sound (meaning S.Source.stock T.Store.pairs T.Store.capacity register.old) → T.Store.sound register.old.texts → Sound (meaning S.Source.stock T.Store.pairs T.Store.capacity register.new) }
        ensures lends { Lends out.old out.new }
        ensures brief { Sound (meaning S.Source.stock T.Store.pairs T.Store.capacity register.old) → T.Store.sound register.old.texts → length (answered (length out.old.bytes.now - out.old.fill) (desk S.Source.stock T.Store.pairs T.Store.capacity U.Store.pairs U.Store.capacity register.old tallies.old self) text.now).text ≤ 4096 }
    {
        self.frame(register, tallies, read_command(text), out)
    }
}
