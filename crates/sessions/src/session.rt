// The three states of a session. Each is moved from call to call: none can be copied or let go by the way. Only an opening line makes an
// open session, and only its end an ended one: their counts of names are out of reach elsewhere.

// No opening line was accepted yet.
pub struct NewSession {
    pub lines: u64,
}

// It takes command lines, or its end.
pub struct OpenSession {
    pub lines: u64,
    pub(crate) minted: u64,
}

// It takes nothing any more.
pub struct EndedSession {
    pub lines: u64,
    pub(crate) minted: u64,
}
