// The lists of a register.
ghost use Rattle.std.specs.Prelude.{◌≡◌, ◌+◌, ◌≤◌, length, vec_len, vec_capacity};
ghost use Rattle.machine.specs.Machine.{outside};
ghost use Rattle.minter.specs.Finds.{Once};

use machine::call::Due;

mod dues;
mod holds;
mod numbers;
mod passes;
mod queues;

// Numbers passed by a mint while they were held; names taken back, those that are due and those that are not yet; the
// numbers on hold, ascending. Each list has its room from the start; std's sets and maps would take memory at an insert.
#[derive(Drop)]
pub(crate) struct Lists {
    pub(crate) aside: Vec<u64>,
    pub(crate) returned: Vec<u64>,
    pub(crate) delayed: Vec<Due>,
    pub(crate) held: Vec<u64>,
    ghost aside_room: { 64 ≤ vec_capacity aside },
    ghost returned_room: { 64 ≤ vec_capacity returned },
    ghost delayed_room: { 64 ≤ vec_capacity delayed },
    ghost held_room: { 64 ≤ vec_capacity held },
    ghost held_once: { Once held.items },
    ghost hold_places: { length aside.items + outside aside.items held.items ≤ 64 },
    ghost queue_places: { vec_len returned + vec_len delayed ≤ 64 },
}
