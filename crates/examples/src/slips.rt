// Three slips seen in minters, and that none of them is made here.
use crate::beginnings::template_of;
use crate::lines::text_of;
use crate::spoils::Spoils;
use crate::tally::Tally;
use crate::worked::try_session;
use names::check::check_character;

const LONGEST: &str = "99999/bcdfghjkmnpqr.seeeeeeeek";

// Places counted from 0: each place is then one less, so that the first byte counts nothing, and the check character is that of the text
// without it.
fn try_places_from_0(tally: &mut Tally<'_>) -> anyhow::Result<()> {
    let text = b"13030/xf93gt2";
    let slip = [check_character(&text[1..])];
    tally.text("13030/xf93gt2 counted from 0", text_of(&slip), "9")?;
    let rule = [check_character(text)];
    tally.text("13030/xf93gt2 by the rule", text_of(&rule), "q")
}

// A held name that is dropped at its turn would be lost.
fn try_held_name(tally: &mut Tally<'_>) -> anyhow::Result<()> {
    let input =
        "template 99999/q7.sdk\nhold set 99999/q70n\nmint 1\nhold release 99999/q70n\nmint 1\n";
    let should =
        "template 99999/q7.sdk 10\nheld 99999/q70n\nminted 99999/q71z\nreleased 99999/q70n\nminted 99999/q70n\nminted 2\n";
    try_session(tally, "a name held at its turn", input, should)
}

// In a name of 29 bytes the exchange of the last two would go unseen: what the first 28 ask for after the exchange is the byte that then
// stands last.
fn try_29_bytes(tally: &mut Tally<'_>, name: &[u8]) -> anyhow::Result<()> {
    let mut text = name.to_vec(tally.heap())?;
    let check = check_character(text.as_slice());
    let last = text.pop().unwrap_or(check);
    text.push(check)?;
    let asked = [check_character(text.as_slice())];
    let what = "29 bytes, exchanged, ask for";
    tally.text(what, text_of(&asked), text_of(&[last]))
}

fn try_longest(tally: &mut Tally<'_>) -> anyhow::Result<()> {
    let template = template_of(LONGEST)?;
    let name = template.name(1_000_000);
    let what = "the longest template's names, bytes";
    tally.compare(what, name.as_slice().len(), 28)?;
    let mut spoils = Spoils::of(&template);
    for n in 0..1000 {
        let mut text = template.name(n).as_slice().to_vec(tally.heap())?;
        spoils.exchange(text.as_mut_slice(), 26, 27);
    }
    let what = "28 bytes, the last two exchanged, refused of all";
    tally.compare(what, spoils.refused, spoils.tried)?;
    try_29_bytes(tally, name.as_slice())
}

pub(crate) fn try_slips(tally: &mut Tally<'_>) -> anyhow::Result<()> {
    try_places_from_0(tally)?;
    try_held_name(tally)?;
    try_longest(tally)
}
