// The refusals of a session that has had all its lines, or that finds too few bytes free for its output.
use crate::beginnings::{NO_TALLY, NO_TEXT, template};
use crate::tally::Tally;
use logs::Log;
use machine::text::Text;
use minter::register::Register;
use names::fault::Refusal;
use sessions::end::StillOpen;
use sessions::line::Reply;
use sessions::opening::{Entered, TurnedAway};
use sessions::session::{NewSession, OpenSession};
use sources::roll::Roll;
use sources::source::Source;
use stores::store::Store;
use stores::tally::TallyKey;
use stores::text::TextKey;
use texts::output::Output;

// Ends a session, which finds room for it, and lets it go.
fn finish<U: Store<TallyKey, u64>>(session: OpenSession, tallies: &U)
    requires { U.Store.sound tallies.now }
{
    let mut wide = [0u8; 4096];
    match session.end(tallies, &mut Output::over(&mut wide)) {
        Ok(session) => {
            session.close();
        }
        Err(_) => unreachable(),
    }
}

// An open session that has counted so many lines and one, or why its opening line is refused.
fn open_after<U: Store<TallyKey, u64>>(
    lines: u64,
    tallies: &mut U,
    out: &mut [u8],
) -> Result<OpenSession, Refusal>
    ensures { U.Store.sound tallies.old → U.Store.sound tallies.new }
{
    let session = NewSession { lines };
    match session.opening(tallies, b"template 99999/q7.sdk", &mut Output::over(out)) {
        Ok(
            Entered {
                session,
                template: _,
            },
        ) => Ok(session),
        Err(TurnedAway { session, fault }) => {
            session.leave();
            Err(fault.into())
        }
    }
}

// Why an opening line is refused, if it is.
fn opening_refusal(lines: u64, out: &mut [u8]) -> Option<Refusal> {
    let mut entries = [NO_TALLY; 2];
    let mut tallies = Log::over(&mut entries);
    match open_after(lines, &mut tallies, out) {
        Ok(session) => {
            finish(session, &tallies);
            None
        }
        Err(refusal) => Some(refusal),
    }
}

// Why a command line is refused, if it is, after so many lines and the opening.
fn line_refusal<S: Source, T: Store<TextKey, Text>>(
    register: &mut Register<S, T>,
    lines: u64,
    out: &mut [u8],
) -> Option<Refusal> {
    let mut entries = [NO_TALLY; 2];
    let mut tallies = Log::over(&mut entries);
    let mut wide = [0u8; 4096];
    let session = open_after(lines, &mut tallies, &mut wide).ok()?;
    let mut out = Output::over(out);
    let Reply { session, fault } = session.line(register, &mut tallies, b"mint 1", &mut out);
    finish(session, &tallies);
    fault.map(Refusal::from)
}

// Why the end of a session is refused, if it is.
fn end_refusal(out: &mut [u8]) -> Option<Refusal> {
    let mut entries = [NO_TALLY; 2];
    let mut tallies = Log::over(&mut entries);
    let mut wide = [0u8; 4096];
    let session = open_after(0, &mut tallies, &mut wide).ok()?;
    match session.end(&tallies, &mut Output::over(out)) {
        Ok(session) => {
            session.close();
            None
        }
        Err(StillOpen { session, fault }) => {
            finish(session, &tallies);
            Some(fault.into())
        }
    }
}

pub(crate) fn try_room(tally: &mut Tally<'_>) -> anyhow::Result<()> {
    let mut wide = [0u8; 4096];
    let mut short = [0u8; 4095];
    let (roll, _) = Roll::new(template()?, &[3, 1]);
    let mut records = [NO_TEXT; 2];
    let mut register = Register::new(tally.heap(), roll, Log::over(&mut records))?;
    let came = opening_refusal(65_535, &mut wide);
    tally.refusal("28, an opening line 65,536", came, 28, 0)?;
    let came = line_refusal(&mut register, 65_534, &mut wide);
    tally.refusal("28, a command line 65,536", came, 28, 0)?;
    let came = opening_refusal(0, &mut short);
    tally.refusal("29, an opening with 4,095 bytes free", came, 29, 0)?;
    let came = line_refusal(&mut register, 0, &mut short);
    tally.refusal("29, a line with 4,095 bytes free", came, 29, 0)?;
    let came = end_refusal(&mut short);
    tally.refusal("29, an end with 4,095 bytes free", came, 29, 0)
}
