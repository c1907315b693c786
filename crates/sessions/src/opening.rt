// The opening line of a session.
ghost use Rattle.std.specs.Prelude.{◌≡◌, ◌-◌, ◌≤◌, true, ◌||◌, length, MatchResult, IfOk, Ok, nat_le, nat_lt};
ghost use Rattle.commands.specs.Forms.{opens};
ghost use Rattle.names.specs.Reader.{read_template};
ghost use Rattle.names.specs.Templates.{form};
ghost use Rattle.sessions.specs.Lends.{Lends};
ghost use Rattle.sessions.specs.Opening.{NewDesk, new_desk, turned_away, entered, opened, Led};
ghost use Rattle.sessions.specs.Tallies.{tallies_in};

use crate::line::{admit, refuse};
use crate::session::{NewSession, OpenSession};
use commands::fault::CommandFault;
use commands::opening::read_opening;
use names::template::Template;
use reports::{Report, write_report};
use stores::store::Store;
use stores::tally::TallyKey;
use texts::output::Output;

// The opening line was accepted: the session, and its template.
pub struct Entered {
    pub session: OpenSession,
    pub template: Template,
}

// It was refused: the session, which stays new, and why.
pub struct TurnedAway {
    pub session: NewSession,
    pub fault: CommandFault,
}

// The text that an opening line says, and the template that it is.
fn read_line<'a>(line: &'a [u8]) -> Result<(&'a [u8], Template), CommandFault>
    ensures reads { MatchResult result (λ x. (opens line.now ≡ Ok x.0.now) × (read_template x.0.now ≡ Ok (form x.1))) (λ fault. (d : NewDesk) → entered d (opens line.now) ≡ turned_away d fault) }
    ensures short { IfOk result (λ x. length x.0.now ≤ 120) }
{
    let word = read_opening(line)?;
    let template = Template::read(word)?;
    Ok((word, template))
}

impl NewSession {
    // A session that no line was given to yet.
    pub fn start() -> NewSession
        ensures { result.lines ≡ 0 }
    {
        NewSession { lines: 0 }
    }

    // Lets go a session that never opened. It writes nothing, and is not the session's end. The answer is how many lines were counted.
    pub fn leave(self) -> u64
        ensures { result ≡ self.lines }
    {
        let NewSession { lines: counted } = self;
        counted
    }

    // Answers an opening line.
    pub fn opening<U: Store<TallyKey, u64>>(
        self,
        tallies: &mut U,
        text: &[u8],
        out: &mut Output<'_>,
    ) -> Result<Entered, TurnedAway>
        ensures led { U.Store.sound tallies.old → Led (opened (length out.old.bytes.now - out.old.fill) (new_desk U.Store.pairs U.Store.capacity tallies.old self.lines) text.now) (tallies_in (U.Store.pairs tallies.new) (U.Store.capacity tallies.new)) out.old out.new result }
        ensures unheard { (nat_le 65535 self.lines || nat_lt (length out.old.bytes.now - out.old.fill) 4096) ≡ true → (tallies.new ≡ tallies.old) × (out.new ≡ out.old) }
        ensures sound { U.Store.sound tallies.old → U.Store.sound tallies.new }
        ensures lends { Lends out.old out.new }
        ensures brief { length (opened (length out.old.bytes.now - out.old.fill) (new_desk U.Store.pairs U.Store.capacity tallies.old self.lines) text.now).text ≤ 4096 }
    {
        if let Err(fault) = admit(self.lines, out) {
            return Err(TurnedAway {
                session: self,
                fault,
            });
        }
        let NewSession { lines } = self;
        let lines = lines + 1;
        match read_line(text) {
            Ok((word, template)) => {
                write_report(out, Report::Template(word, template.total()));
                let session = OpenSession { lines, minted: 0 };
                Ok(Entered { session, template })
            }
            Err(fault) => {
                refuse(lines, fault, tallies, out);
                let session = NewSession { lines };
                Err(TurnedAway { session, fault })
            }
        }
    }
}
