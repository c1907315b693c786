// The lines of an input until one opens the session.
ghost use Rattle.std.specs.Prelude.{◌≡◌, ◌+◌, ◌*◌, ◌≤◌, length};
ghost use Rattle.sessions.specs.Opening.{new_desk};
ghost use Rattle.sessions.specs.Tallies.{tallies_in};
ghost use Rattle.texts.specs.Pieces.{pieces};
ghost use Rattle.serving.specs.Serving.{awaited};
ghost use Rattle.serving.specs.Found.{Finds};

use sessions::opening::{Entered, TurnedAway};
use sessions::session::NewSession;
use stores::store::Store;
use stores::tally::TallyKey;
use texts::output::Output;
use texts::pieces::Pieces;

// Gives a new session the lines of an input until one opens it: the open session and the lines that are left, or the session that is new still.
pub(crate) fn find_opening<'a, U: Store<TallyKey, u64>>(
    tallies: &mut U,
    input: &'a [u8],
    out: &mut Output<'_>,
) -> Result<(Entered, Pieces<'a>), NewSession>
    requires tallies { U.Store.sound tallies.old }
    requires room { out.old.fill + 4096 * (length (pieces 10 input.now) + 1) ≤ length out.old.bytes.now }
    ensures found { Finds (awaited (new_desk U.Store.pairs U.Store.capacity tallies.old 0) (pieces 10 input.now)) (tallies_in (U.Store.pairs tallies.new) (U.Store.capacity tallies.new)) out.old out.new result }
    ensures tallies { U.Store.sound tallies.new }
{
    let mut session = NewSession::start();
    let mut lines = Pieces::of(input, b'\n');
    while let Some(line) = lines.next() {
        match session.opening(tallies, line, out) {
            Ok(entered) => return Ok((entered, lines)),
            Err(
                TurnedAway {
                    session: same,
                    fault: _,
                },
            ) => session = same,
        }
    }
    Err(session)
}
