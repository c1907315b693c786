// Commands as they are read: their words are parts of the line.
use stores::text::Element;

// An element word that is none of the four stands beside `None`: the command has its form, and the register refuses it in its turn.
#[derive(Clone, Copy)]
pub enum Command<'a> {
    // how many
    Mint(u64),
    // the name
    HoldSet(&'a [u8]),
    HoldRelease(&'a [u8]),
    // the name and the seconds
    Queue(&'a [u8], u64),
    // the second
    Tick(u64),
    // the name, the element by its word and its meaning, the text
    BindSet(&'a [u8], &'a [u8], Option<Element>, &'a [u8]),
    BindPurge(&'a [u8], &'a [u8], Option<Element>),
    Fetch(&'a [u8], &'a [u8], Option<Element>),
    Validate(&'a [u8]),
}
