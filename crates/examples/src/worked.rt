// The worked session: a name is held, passed over, released and minted, and another is taken back and minted again.
use crate::lines::{answer, text_of};
use crate::tally::Tally;

const INPUT: &str = "template 99999/q7.sdk
mint 2
hold set 99999/q728
mint 1
queue now 99999/q71z
hold release 99999/q728
mint 2
validate 99999/q72n
";

const REPORTS: &str = "template 99999/q7.sdk 10
minted 99999/q70n
minted 99999/q71z
held 99999/q728
minted 99999/q73k
queued 99999/q71z
released 99999/q728
minted 99999/q728
minted 99999/q71z
refused 8 8 9
tally 8 1
minted 5
";

// A session's reports, line by line, and how many bytes they have.
pub(crate) fn try_session(
    tally: &mut Tally<'_>,
    what: &str,
    input: &str,
    should: &str,
) -> anyhow::Result<()> {
    let reports = answer(tally.heap(), input)?;
    let came = text_of(reports.as_slice());
    for (line, should) in came.lines().zip(should.lines()) {
        tally.text(what, line, should)?;
    }
    let bytes = format!(in tally.heap(); "{what}, bytes")?;
    tally.compare(bytes.as_str(), came.len(), should.len())
}

pub(crate) fn try_worked(tally: &mut Tally<'_>) -> anyhow::Result<()> {
    try_session(tally, "worked session", INPUT, REPORTS)
}
