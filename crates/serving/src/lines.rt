// The lines of an input, given to a session one after another.
ghost use Rattle.std.specs.Prelude.{◌≡◌, ◌+◌, ◌*◌, ◌≤◌, length};
ghost use Rattle.machine.specs.Runs.{Sound};
ghost use Rattle.minter.specs.Meaning.{meaning};
ghost use Rattle.sessions.specs.Frames.{desk};
ghost use Rattle.texts.specs.Output.{Puts};
ghost use Rattle.serving.specs.Serving.{lines_text, lines_desk};

use machine::text::Text;
use minter::register::Register;
use sessions::line::Reply;
use sessions::session::OpenSession;
use sources::source::Source;
use stores::store::Store;
use stores::tally::TallyKey;
use stores::text::TextKey;
use texts::output::Output;
use texts::pieces::Pieces;

// Gives an open session lines. (That the output has room for them, here and in serve.rt, is a fact of the output and the lines left together; no type holds both.)
pub(crate) fn answer_lines<S: Source, T: Store<TextKey, Text>, U: Store<TallyKey, u64>>(
    session: OpenSession,
    register: &mut Register<S, T>,
    tallies: &mut U,
    lines: Pieces<'_>,
    out: &mut Output<'_>,
) -> OpenSession
    requires sound { Sound (meaning S.Source.stock T.Store.pairs T.Store.capacity register.old) }
    requires store { T.Store.sound register.old.texts }
    requires tallies { U.Store.sound tallies.old }
    requires room { out.old.fill + 4096 * (length lines + 1) ≤ length out.old.bytes.now }
    ensures text { Puts out.old (lines_text (desk S.Source.stock T.Store.pairs T.Store.capacity U.Store.pairs U.Store.capacity register.old tallies.old session) lines.entry) out.new }
    ensures desk { desk S.Source.stock T.Store.pairs T.Store.capacity U.Store.pairs U.Store.capacity register.new tallies.new result ≡ lines_desk (desk S.Source.stock T.Store.pairs T.Store.capacity U.Store.pairs U.Store.capacity register.old tallies.old session) lines.entry }
    ensures tallies { U.Store.sound tallies.new }
    ensures room { out.new.fill + 4096 ≤ length out.new.bytes.now }
{
    let mut session = session;
    for line in lines {
        Reply { session, fault: _ } = session.line(register, tallies, line, out);
    }
    session
}
