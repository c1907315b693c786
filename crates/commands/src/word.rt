// The words that commands begin with and have inside, and the element words.
ghost use Rattle.std.specs.Prelude.{◌≡◌, ℕ, true, List, refl};
ghost use Rattle.commands.specs.Words.{pick, heads, openings, turns, edits, elements, all_plain};

use stores::text::Element;

// A kind of word, by the table of its words. By the rules the words are string literals as cases, so each kind has a `match`.
pub(crate) trait Keyword: Sized {
    ghost table: { List (List ℕ × Self) };

    fn named(text: &str) -> Option<Self>
        ensures { result ≡ pick table text.now };

    // so that bytes that are no text are none of the words
    ghost plain: { all_plain table ≡ true };
}

// What a word stands for.
#[tactic(auto, using(crate::proofs::Tables::garbled))]
pub(crate) fn word_of<K: Keyword>(word: &[u8]) -> Option<K>
    ensures { result ≡ pick K.table word.now }
{
    K::named(std::str::from_utf8(word).ok()?)
}

// The first word of a command.
#[derive(Clone, Copy)]
pub enum Head {
    Mint,
    Hold,
    Queue,
    Tick,
    Bind,
    Fetch,
    Validate,
}

impl Keyword for Head {
    ghost table = { heads };

    ghost plain = { refl };

    fn named(text: &str) -> Option<Self> {
        match text {
            "mint" => Some(Head::Mint),
            "hold" => Some(Head::Hold),
            "queue" => Some(Head::Queue),
            "tick" => Some(Head::Tick),
            "bind" => Some(Head::Bind),
            "fetch" => Some(Head::Fetch),
            "validate" => Some(Head::Validate),
            _ => None,
        }
    }
}

// The first word of an opening line: one case, so that it is read as the other kinds are.
#[derive(Clone, Copy)]
pub enum Opening {
    Template,
}

impl Keyword for Opening {
    ghost table = { openings };

    ghost plain = { refl };

    fn named(text: &str) -> Option<Self> {
        match text {
            "template" => Some(Opening::Template),
            _ => None,
        }
    }
}

// The second word of `hold`.
#[derive(Clone, Copy)]
pub enum Turn {
    Set,
    Release,
}

impl Keyword for Turn {
    ghost table = { turns };

    ghost plain = { refl };

    fn named(text: &str) -> Option<Self> {
        match text {
            "set" => Some(Turn::Set),
            "release" => Some(Turn::Release),
            _ => None,
        }
    }
}

// The second word of `bind`.
#[derive(Clone, Copy)]
pub enum Edit {
    Set,
    Purge,
}

impl Keyword for Edit {
    ghost table = { edits };

    ghost plain = { refl };

    fn named(text: &str) -> Option<Self> {
        match text {
            "set" => Some(Edit::Set),
            "purge" => Some(Edit::Purge),
            _ => None,
        }
    }
}

impl Keyword for Element {
    ghost table = { elements };

    ghost plain = { refl };

    fn named(text: &str) -> Option<Self> {
        match text {
            "who" => Some(Element::Who),
            "what" => Some(Element::What),
            "when" => Some(Element::When),
            "where" => Some(Element::Where),
            _ => None,
        }
    }
}
