// Names spoilt in every way that a check character must show.
use names::template::Template;

// How many spoilt names were tried under a template, and how many of them refused.
#[derive(Drop)]
pub(crate) struct Spoils<'a> {
    template: &'a Template,
    pub(crate) tried: u64,
    pub(crate) refused: u64,
}

impl<'a> Spoils<'a> {
    pub(crate) fn of(template: &'a Template) -> Spoils<'a> {
        Spoils {
            template,
            tried: 0,
            refused: 0,
        }
    }

    fn put_to(&mut self, text: &[u8]) {
        self.tried = self.tried.saturating_add(1);
        if self.template.validate(text).is_err() {
            self.refused = self.refused.saturating_add(1);
        }
    }

    // The byte at a place changed to each of the 255 others.
    fn change(&mut self, text: &mut [u8], at: usize) {
        if at < text.len() {
            let byte = text[at];
            for more in 1..=255u8 {
                text[at] = byte.wrapping_add(more);
                self.put_to(text);
            }
            text[at] = byte;
        }
    }

    // Every byte changed to each other. (By index here and below: each step changes bytes of the text and hands on the whole of it.)
    pub(crate) fn change_all(&mut self, text: &mut [u8]) {
        for at in 0..text.len() {
            self.change(text, at);
        }
    }

    // The bytes at two places exchanged, if they are not equal.
    pub(crate) fn exchange(&mut self, text: &mut [u8], i: usize, j: usize) {
        if i < text.len() && j < text.len() && text[i] != text[j] {
            text.swap(i, j);
            self.put_to(text);
            text.swap(i, j);
        }
    }

    fn exchange_from(&mut self, text: &mut [u8], i: usize) {
        for j in i..text.len() {
            self.exchange(text, i, j);
        }
    }

    // Every two unequal bytes exchanged.
    pub(crate) fn exchange_all(&mut self, text: &mut [u8]) {
        for i in 0..text.len() {
            self.exchange_from(text, i);
        }
    }
}
