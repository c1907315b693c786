// What the examples begin with: templates, and a record of a log that holds nothing.
use anyhow::anyhow;
use logs::entry::Entry;
use machine::text::Text;
use names::template::Template;
use stores::tally::TallyKey;
use stores::text::{Element, TextKey};

pub(crate) const NO_TALLY: Entry<TallyKey, u64> = Entry::Dropped(TallyKey { number: 0 });

pub(crate) const NO_TEXT: Entry<TextKey, Text> = Entry::Dropped(TextKey {
    number: 0,
    element: Element::Who,
});

pub(crate) fn template_of(text: &str) -> anyhow::Result<Template> {
    let template = Template::read(text.as_bytes()).map_err(|_| anyhow!("the template is none"))?;
    Ok(template)
}

// The template of the examples on a register of their own.
pub(crate) fn template() -> anyhow::Result<Template> {
    template_of("99999/q7.sdk")
}
