// The reports of a session, as text.
use serving::serve::serve;
use std::alloc::{AllocError, Global};

pub(crate) fn answer(heap: Global, input: &str) -> Result<Vec<u8>, AllocError> {
    serve(heap, input.as_bytes())
}

pub(crate) fn text_of(bytes: &[u8]) -> &str {
    std::str::from_utf8(bytes).unwrap_or("(no text)")
}

// The first report line that begins with a word, if there is one.
pub(crate) fn first_line<'a>(reports: &'a str, word: &str) -> &'a str {
    reports
        .lines()
        .find(|line| line.starts_with(word))
        .unwrap_or("(none)")
}

// How many report lines begin with a word.
pub(crate) fn count_lines(reports: &str, word: &str) -> usize {
    reports
        .lines()
        .filter(|line| line.starts_with(word))
        .count()
}
