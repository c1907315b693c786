// The register: what it keeps between calls.
ghost use Rattle.std.specs.Prelude.{◌≡◌, ◌≤◌, []};

use crate::lists::Lists;
use machine::text::Text;
use sources::source::Source;
use stores::store::Store;
use stores::text::TextKey;

mod binds;
mod draws;
mod holds;
mod makes;
mod naming;
mod queues;
mod serves;

// All memory is reserved when the register is made.
// The contracts of its calls name `meaning` in place of an `impl Model`: a model hides the fields, and a refusal's `self.new ≡ self.old` would say less.
// `Sound` and the store's `sound` stay premises of clauses: `open` takes any store with any pairs, and no public function asks anything of its caller.
#[derive(Drop)]
pub struct Register<S, T> {
    source: S,
    texts: T,
    clock: u64,
    lists: Lists,
    ghost early: { clock ≤ 1000000000000 },
}

// The memory of a register, reserved before it is made.
#[derive(Drop)]
pub struct Room {
    lists: Lists,
    ghost aside_none: { lists.aside.items ≡ [] },
    ghost returned_none: { lists.returned.items ≡ [] },
    ghost delayed_none: { lists.delayed.items ≡ [] },
    ghost held_none: { lists.held.items ≡ [] },
}
