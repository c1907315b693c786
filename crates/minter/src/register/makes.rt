// How a register is made.
ghost use Rattle.std.specs.Prelude.{◌≡◌, [], IfOk};
ghost use Rattle.machine.specs.Machine.{fresh};
ghost use Rattle.minter.specs.Meaning.{meaning, opened};
ghost use Rattle.machine.specs.Runs.{Sound};

use super::{Register, Room};
use crate::lists::Lists;
use machine::text::Text;
use sources::source::Source;
use std::alloc::{AllocError, Global};
use stores::store::Store;
use stores::text::TextKey;

impl Room {
    // Reserves the memory of a register.
    pub fn new(heap: Global) -> Result<Room, AllocError>
        ensures { IfOk result (λ room. (room.lists.aside.items ≡ []) × (room.lists.returned.items ≡ []) × (room.lists.delayed.items ≡ []) × (room.lists.held.items ≡ [])) }
    {
        let lists = Lists {
            aside: Vec::with_capacity(heap, 64)?,
            returned: Vec::with_capacity(heap, 64)?,
            delayed: Vec::with_capacity(heap, 64)?,
            held: Vec::with_capacity(heap, 64)?,
        };
        Ok(Room { lists })
    }
}

impl<S: Source, T: Store<TextKey, Text>> Register<S, T> {
    // A register over a source and a store, in memory that was reserved before.
    pub fn open(room: Room, source: S, texts: T) -> Register<S, T>
        ensures parts { (result.source ≡ source) × (result.texts ≡ texts) }
        ensures opened { meaning S.Source.stock T.Store.pairs T.Store.capacity result ≡ opened (S.Source.stock source) (T.Store.pairs texts) (T.Store.capacity texts) }
        ensures fresh { T.Store.pairs texts ≡ [] → meaning S.Source.stock T.Store.pairs T.Store.capacity result ≡ fresh (S.Source.stock source) (T.Store.capacity texts) }
        ensures sound { T.Store.pairs texts ≡ [] → Sound (meaning S.Source.stock T.Store.pairs T.Store.capacity result) }
    {
        let Room { lists } = room;
        Register {
            source,
            texts,
            clock: 0,
            lists,
        }
    }
}

impl<S: Source + Drop, T: Store<TextKey, Text> + Drop> Register<S, T> {
    // The same where the memory is yet to be reserved.
    pub fn new(heap: Global, source: S, texts: T) -> Result<Register<S, T>, AllocError>
        ensures parts { IfOk result (λ reg. (reg.source ≡ source) × (reg.texts ≡ texts)) }
        ensures opened { IfOk result (λ reg. meaning S.Source.stock T.Store.pairs T.Store.capacity reg ≡ opened (S.Source.stock source) (T.Store.pairs texts) (T.Store.capacity texts)) }
        ensures fresh { IfOk result (λ reg. (T.Store.pairs texts ≡ [] → meaning S.Source.stock T.Store.pairs T.Store.capacity reg ≡ fresh (S.Source.stock source) (T.Store.capacity texts))) }
        ensures sound { IfOk result (λ reg. (T.Store.pairs texts ≡ [] → Sound (meaning S.Source.stock T.Store.pairs T.Store.capacity reg))) }
    {
        let room = Room::new(heap)?;
        Ok(Register::open(room, source, texts))
    }
}
