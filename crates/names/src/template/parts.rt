// The parts of a template's text, and the classes of its bytes.

// What a byte can be in a template. Order is r or s, Ten and All are the mask positions d and e, Check is k, Plain any other
// of the 29 characters.
#[derive(Clone, Copy)]
pub enum Class {
    Digit,
    Slash,
    Dot,
    Order,
    Ten,
    All,
    Check,
    Plain,
    Other,
}

// The part that the next byte belongs to; after the closing k nothing may follow.
#[derive(Clone, Copy)]
pub enum Part {
    Naan,
    Slash,
    Shoulder,
    Letter,
    Mask,
    Closed,
}

// How far a text is read: the part, the bytes of this part so far, and the shoulder's length once the dot is read. The reader matches on part and class
// together, so the counts stand beside the part and not in its cases.
#[derive(Clone, Copy)]
pub struct Reader {
    pub part: Part,
    pub count: u8,
    pub shoulder: u8,
}

// The lengths of a template's shoulder and mask, and whether it ends in k.
#[derive(Clone, Copy)]
pub struct Shape {
    pub shoulder: u8,
    pub mask: u8,
    pub check: bool,
}
