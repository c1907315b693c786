// The memory of a session, reserved before its first line.
ghost use Rattle.std.specs.Prelude.{◌≡◌, IfOk, vec_len};

use chains::node::Node;
use logs::entry::Entry;
use machine::text::Text;
use minter::register::Room;
use std::alloc::{AllocError, Global};
use stores::tally::TallyKey;
use stores::text::{Element, TextKey};

// A register's lists, a chain table of 529 records for texts and a log of 64 for tallies.
#[derive(Drop)]
pub struct Memory {
    pub(crate) room: Room,
    pub(crate) nodes: Vec<Node<TextKey, Text>>,
    pub(crate) entries: Vec<Entry<TallyKey, u64>>,
    ghost table: { vec_len nodes ≡ 529 },
    ghost log: { vec_len entries ≡ 64 },
}

impl Memory {
    pub fn new(heap: Global) -> Result<Memory, AllocError>
        ensures { IfOk result (λ m. (vec_len m.nodes ≡ 529) × (vec_len m.entries ≡ 64)) }
    {
        let room = Room::new(heap)?;
        let key = TextKey {
            number: 0,
            element: Element::Who,
        };
        let value = Text::new();
        let nodes = vec![in heap; Node {
            key,
            value,
            next: 0
        }; 529]?;
        let entries = vec![in heap; Entry::Dropped(TallyKey { number: 0 }); 64]?;
        Ok(Memory {
            room,
            nodes,
            entries,
        })
    }
}
