// The end of a session.
ghost use Rattle.std.specs.Prelude.{◌≡◌, ◌-◌, ◌<◌, ◌≤◌, true, false, length, is_ok};
ghost use Rattle.reports.specs.Reports.{line, tally};
ghost use Rattle.texts.specs.Output.{Puts};
ghost use Rattle.sessions.specs.Lends.{Lends};
ghost use Rattle.sessions.specs.Ends.{tally_line, tally_lines, closing, Closes};
ghost use Rattle.sessions.specs.Tallies.{tallies_in, under};

use crate::line::find_room;
use crate::session::{EndedSession, OpenSession};
use commands::fault::CommandFault;
use reports::{Report, write_report};
use stores::store::Store;
use stores::tally::TallyKey;
use texts::output::Output;

// The refusal numbers are 1 to 30.
const PAST_THE_LAST: u8 = 31;

// The session, which is open still, and why.
pub struct StillOpen {
    pub session: OpenSession,
    pub fault: CommandFault,
}

// The report line of a refusal number that was met; a function of its own, since the proof knows of an argument that it fits 64 bits.
fn write_count(number: u8, count: u64, out: &mut Output<'_>)
    ensures text { Puts out.old (line (tally number count)) out.new }
    ensures brief { length (line (tally number count)) ≤ 48 }
{
    write_report(out, Report::Tally(number, count))
}

// The report line of a refusal number, if it was met.
fn write_tally<U: Store<TallyKey, u64>>(tallies: &U, number: u8, out: &mut Output<'_>)
    ensures text { U.Store.sound tallies.now → Puts out.old (tally_line number ((tallies_in (U.Store.pairs tallies.now) (U.Store.capacity tallies.now)).counts (under number))) out.new }
    ensures brief { U.Store.sound tallies.now → length (tally_line number ((tallies_in (U.Store.pairs tallies.now) (U.Store.capacity tallies.now)).counts (under number))) ≤ 48 }
    ensures lends { Lends out.old out.new }
{
    let mut count = 0;
    if tallies.get(&TallyKey { number }, &mut count) {
        write_count(number, count, out);
    }
}

// The report lines of all refusal numbers that were met, rising.
fn write_tallies<U: Store<TallyKey, u64>>(tallies: &U, out: &mut Output<'_>)
    ensures text { U.Store.sound tallies.now → Puts out.old (tally_lines (tallies_in (U.Store.pairs tallies.now) (U.Store.capacity tallies.now)) 30 1) out.new }
    ensures brief { U.Store.sound tallies.now → length (tally_lines (tallies_in (U.Store.pairs tallies.now) (U.Store.capacity tallies.now)) 30 1) ≤ 1440 }
    ensures lends { Lends out.old out.new }
{
    for number in 1..PAST_THE_LAST {
        write_tally(tallies, number, out);
    }
}

impl OpenSession {
    // Ends the session: its tallies, and how many names it minted.
    pub fn end<U: Store<TallyKey, u64>>(
        self,
        tallies: &U,
        out: &mut Output<'_>,
    ) -> Result<EndedSession, StillOpen>
        ensures closes { U.Store.sound tallies.now → Closes (length out.old.bytes.now - out.old.fill) (tallies_in (U.Store.pairs tallies.now) (U.Store.capacity tallies.now)) self out.old out.new result }
        ensures refusal { is_ok result ≡ false → out.new ≡ out.old }
        ensures brief { U.Store.sound tallies.now → is_ok result ≡ true → length (closing (tallies_in (U.Store.pairs tallies.now) (U.Store.capacity tallies.now)) self.minted) < 4096 }
        ensures lends { Lends out.old out.new }
    {
        if let Err(fault) = find_room(out) {
            return Err(StillOpen {
                session: self,
                fault,
            });
        }
        let OpenSession { lines, minted } = self;
        write_tallies(tallies, out);
        write_report(out, Report::Total(minted));
        Ok(EndedSession { lines, minted })
    }
}

impl EndedSession {
    // Lets an ended session go, and says how many names it minted.
    pub fn close(self) -> u64
        ensures { result ≡ self.minted }
    {
        let EndedSession { lines: _, minted } = self;
        minted
    }
}
