// The refusals that a line of a session can meet. (12, 16 and 24 are met where places and texts run out.)
use crate::lines::{answer, first_line, text_of};
use crate::tally::Tally;
use serving::serve::serve;

const OPENING: &str = "template 99999/q7.sdk\n";

// Lines, and the first refusal that they should meet.
struct Case {
    what: &'static str,
    lines: &'static str,
    should: &'static str,
}

// Each the first line of a session.
const OPENINGS: [Case; 5] = [
    Case {
        what: "1, four digits",
        lines: "template 9999/q7.sdk\n",
        should: "refused 1 1 4",
    },
    Case {
        what: "2, no shoulder",
        lines: "template 99999/.sd\n",
        should: "refused 1 2 6",
    },
    Case {
        what: "3, another letter than r or s",
        lines: "template 99999/q7.xdk\n",
        should: "refused 1 3 9",
    },
    Case {
        what: "4, no mask",
        lines: "template 99999/q7.sk\n",
        should: "refused 1 4 10",
    },
    Case {
        what: "5, the text ends early",
        lines: "template 99999/q7\n",
        should: "refused 1 5 8",
    },
];

// Each after an opening.
const LINES: [Case; 16] = [
    Case {
        what: "6, a byte short",
        lines: "validate 99999/q70\n",
        should: "refused 2 6 9",
    },
    Case {
        what: "7, a vowel",
        lines: "validate 99999/q7an\n",
        should: "refused 2 7 8",
    },
    Case {
        what: "8, another check character",
        lines: "validate 99999/q72n\n",
        should: "refused 2 8 9",
    },
    Case {
        what: "10, held already",
        lines: "hold set 99999/q70n\nhold set 99999/q70n\n",
        should: "refused 3 10 0",
    },
    Case {
        what: "11, not held",
        lines: "hold release 99999/q70n\n",
        should: "refused 2 11 0",
    },
    Case {
        what: "13, it waits",
        lines: "queue now 99999/q70n\n",
        should: "refused 2 13 0",
    },
    Case {
        what: "14, on hold",
        lines: "mint 1\nhold set 99999/q70n\nqueue now 99999/q70n\n",
        should: "refused 4 14 0",
    },
    Case {
        what: "15, a text is bound",
        lines: "mint 1\nbind set 99999/q70n who crew\nqueue now 99999/q70n\n",
        should: "refused 4 15 0",
    },
    Case {
        what: "17, a second over a year",
        lines: "queue 31536001 99999/q70n\n",
        should: "refused 2 17 0",
    },
    Case {
        what: "18, the clock back",
        lines: "tick 5\ntick 4\n",
        should: "refused 3 18 0",
    },
    Case {
        what: "19, no element",
        lines: "bind set 99999/q70n whom crew\n",
        should: "refused 2 19 0",
    },
    Case {
        what: "20, a text of 41 bytes",
        lines: "bind set 99999/q70n who 12345678901234567890123456789012345678901\n",
        should: "refused 2 20 0",
    },
    Case {
        what: "21, no text is bound",
        lines: "fetch 99999/q70n who\n",
        should: "refused 2 21 0",
    },
    Case {
        what: "22, nothing waits",
        lines: "mint 11\n",
        should: "refused 2 22 0",
    },
    Case {
        what: "23, all that wait are stopped",
        lines: "mint 9\nhold set 99999/q79f\nmint 1\n",
        should: "refused 4 23 0",
    },
    Case {
        what: "27, no form",
        lines: "mint 0\n",
        should: "refused 2 27 5",
    },
];

fn meet(tally: &mut Tally<'_>, opening: &str, case: &Case) -> anyhow::Result<()> {
    let mut input = String::from_str(tally.heap(), opening)?;
    input.push_str(case.lines)?;
    let reports = answer(tally.heap(), input.as_str())?;
    let came = first_line(text_of(reports.as_slice()), "refused ");
    tally.text(case.what, came, case.should)
}

fn meet_all(tally: &mut Tally<'_>, opening: &str, cases: &[Case]) -> anyhow::Result<()> {
    for case in cases {
        meet(tally, opening, case)?;
    }
    Ok(())
}

fn try_long_input(tally: &mut Tally<'_>) -> anyhow::Result<()> {
    let input = vec![in tally.heap(); b'\n'; 32_769]?;
    let reports = serve(tally.heap(), input.as_slice())?;
    let came = text_of(reports.as_slice()).trim_end();
    tally.text("30, an input of 32,769 bytes", came, "refused 0 30 0")
}

pub(crate) fn try_lines(tally: &mut Tally<'_>) -> anyhow::Result<()> {
    meet_all(tally, "", &OPENINGS)?;
    meet_all(tally, OPENING, &LINES)?;
    try_long_input(tally)
}
