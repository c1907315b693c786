// The 64 places for holds, the 64 for names taken back, and the 512 texts: the last of each is taken, and one more is refused.
use crate::beginnings::template_of;
use crate::lines::{answer, count_lines, first_line, text_of};
use crate::tally::Tally;
use names::template::Template;
use std::alloc::AllocError;

// A line for each of the first so many names: the words before the name, and those after it.
struct Lines {
    names: u64,
    before: &'static str,
    after: &'static str,
}

// The lines that fill all places and ask for one more: what stands before them; the report of a place taken, with how many should be;
// and the refusal of the last.
struct Filling {
    opening: &'static str,
    lines: &'static [Lines],
    what: &'static str,
    taken: &'static str,
    places: usize,
    one_more: &'static str,
    refusal: &'static str,
}

const FILLINGS: [Filling; 3] = [
    Filling {
        opening: "template 99999/q7.see\n",
        lines: &[Lines {
            names: 65,
            before: "hold set ",
            after: "",
        }],
        what: "65 holds, taken",
        taken: "held ",
        places: 64,
        one_more: "12, the 65th hold",
        refusal: "refused 66 12 0",
    },
    Filling {
        opening: "template 99999/q7.see\nmint 65\n",
        lines: &[Lines {
            names: 65,
            before: "queue now ",
            after: "",
        }],
        what: "65 queuings, taken",
        taken: "queued ",
        places: 64,
        one_more: "16, the 65th queuing",
        refusal: "refused 67 16 0",
    },
    Filling {
        opening: "template 99999/q7.see\nmint 100\nmint 29\n",
        lines: &[
            Lines {
                names: 128,
                before: "bind set ",
                after: " who x",
            },
            Lines {
                names: 128,
                before: "bind set ",
                after: " what x",
            },
            Lines {
                names: 128,
                before: "bind set ",
                after: " when x",
            },
            Lines {
                names: 129,
                before: "bind set ",
                after: " where x",
            },
        ],
        what: "513 texts, bound",
        taken: "bound ",
        places: 512,
        one_more: "24, the 513th text",
        refusal: "refused 516 24 0",
    },
];

fn add_lines(input: &mut String, template: &Template, lines: &Lines) -> Result<(), AllocError> {
    for n in 0..lines.names {
        let name = template.name(n);
        writeln!(input, "{}{name}{}", lines.before, lines.after)?;
    }
    Ok(())
}

fn try_filling(
    tally: &mut Tally<'_>,
    template: &Template,
    filling: &Filling,
) -> anyhow::Result<()> {
    let mut input = String::from_str(tally.heap(), filling.opening)?;
    for lines in filling.lines {
        add_lines(&mut input, template, lines)?;
    }
    let reports = answer(tally.heap(), input.as_str())?;
    let came = text_of(reports.as_slice());
    tally.compare(
        filling.what,
        count_lines(came, filling.taken),
        filling.places,
    )?;
    tally.text(
        filling.one_more,
        first_line(came, "refused "),
        filling.refusal,
    )
}

pub(crate) fn try_places(tally: &mut Tally<'_>) -> anyhow::Result<()> {
    let template = template_of("99999/q7.see")?;
    for filling in &FILLINGS {
        try_filling(tally, &template, filling)?;
    }
    Ok(())
}
