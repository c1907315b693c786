// Names that were published with check characters: each is one of its template, and spoilt it is none.
use crate::beginnings::template_of;
use crate::spoils::Spoils;
use crate::tally::Tally;
use names::template::Template;

struct Published {
    template: &'static str,
    name: &'static str,
    number: u64,
}

const NAMES: [Published; 5] = [
    Published {
        template: "13030/xf93gt.rdk",
        name: "13030/xf93gt2q",
        number: 2,
    },
    Published {
        template: "13030/f54x54g.rdk",
        name: "13030/f54x54g11",
        number: 1,
    },
    Published {
        template: "13030/tf5p3008.rdk",
        name: "13030/tf5p30086k",
        number: 6,
    },
    Published {
        template: "13960/t5z64fc.rdk",
        name: "13960/t5z64fc55",
        number: 5,
    },
    Published {
        template: "13030/ft4w1006.rdk",
        name: "13030/ft4w10060w",
        number: 0,
    },
];

fn try_spoilt(tally: &mut Tally<'_>, template: &Template, name: &str) -> anyhow::Result<()> {
    let mut text = name.as_bytes().to_vec(tally.heap())?;
    let mut changes = Spoils::of(template);
    changes.change_all(text.as_mut_slice());
    let what = "  one byte changed, refused of all";
    tally.compare(what, changes.refused, changes.tried)?;
    let mut exchanges = Spoils::of(template);
    exchanges.exchange_all(text.as_mut_slice());
    let what = "  two bytes exchanged, refused of all";
    tally.compare(what, exchanges.refused, exchanges.tried)
}

fn try_name(tally: &mut Tally<'_>, published: &Published) -> anyhow::Result<()> {
    let template = template_of(published.template)?;
    let name = published.name;
    match template.validate(name.as_bytes()) {
        Ok(came) => tally.compare(name, came, published.number)?,
        Err(_) => tally.text(name, "refused", "valid")?,
    }
    try_spoilt(tally, &template, name)
}

pub(crate) fn try_names(tally: &mut Tally<'_>) -> anyhow::Result<()> {
    for published in &NAMES {
        try_name(tally, published)?;
    }
    Ok(())
}
