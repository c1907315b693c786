// A whole run over a new register.
ghost use Rattle.std.specs.Prelude.{◌≡◌, min, [], ◌++◌, length, take, drop, IfOk};
ghost use Rattle.machine.specs.Calls.{asks};
ghost use Rattle.machine.specs.History.{told};
ghost use Rattle.machine.specs.Law.{Law, FirstTurns, new};
ghost use Rattle.machine.specs.Machine.{answers, final, fresh};
ghost use Rattle.minter.specs.Meaning.{meaning};

use machine::call::{Answer, Call};
use machine::text::Text;
use minter::register::{Register, Room};
use sources::source::Source;
use std::alloc::{AllocError, Global};
use stores::store::Store;
use stores::text::TextKey;

// Makes a register over a source and a store, and serves the calls in their order. That the store is sound and empty is a premise here and below: a
// run takes any store. Room, source, store, calls and answers come apart, since each goes another way: into the register, or in and out of its calls.
// It does not call `run_in`, which writes over answers that are there: the list would have to be filled twice.
pub fn run<S: Source + Drop, T: Store<TextKey, Text> + Drop>(
    heap: Global,
    source: S,
    texts: T,
    calls: &[Call<'_>],
) -> Result<(Register<S, T>, Vec<Answer>), AllocError>
    ensures answers { IfOk result (λ done. (T.Store.sound texts → T.Store.pairs texts ≡ [] → done.1.items ≡ answers (fresh (S.Source.stock source) (T.Store.capacity texts)) (asks calls.now))) }
    ensures after { IfOk result (λ done. (T.Store.sound texts → T.Store.pairs texts ≡ [] → (meaning S.Source.stock T.Store.pairs T.Store.capacity done.0 ≡ final (fresh (S.Source.stock source) (T.Store.capacity texts)) (asks calls.now)) × T.Store.sound done.0.texts)) }
    ensures law { IfOk result (λ done. (T.Store.sound texts → T.Store.pairs texts ≡ [] → Law (S.Source.stock source) (new (S.Source.stock source)) (told (S.Source.stock source).named (asks calls.now) done.1.items))) }
    ensures first { FirstTurns (S.Source.stock source) }
    ensures naming { IfOk result (λ done. (T.Store.sound texts → T.Store.pairs texts ≡ [] → ((S.Source.stock done.0.source).reads ≡ (S.Source.stock source).reads) × ((S.Source.stock done.0.source).named ≡ (S.Source.stock source).named))) }
{
    let mut out = Vec::with_capacity(heap, calls.len())?;
    let room = Room::new(heap)?;
    let mut reg = Register::open(room, source, texts);
    for call in calls {
        out.push_reserved(reg.serve(call));
    }
    Ok((reg, out))
}

// The same in memory reserved before, so that it cannot fail: it serves as many calls as there are places for answers, and says how many.
pub fn run_in<S: Source, T: Store<TextKey, Text>>(
    room: Room,
    source: S,
    texts: T,
    calls: &[Call<'_>],
    out: &mut [Answer],
) -> (Register<S, T>, usize)
    ensures served { result.1 ≡ min (length calls.now) (length out.old) }
    ensures answers { T.Store.sound texts → T.Store.pairs texts ≡ [] → out.new ≡ answers (fresh (S.Source.stock source) (T.Store.capacity texts)) (asks (take result.1 calls.now)) ++ drop result.1 out.old }
    ensures after { T.Store.sound texts → T.Store.pairs texts ≡ [] → (meaning S.Source.stock T.Store.pairs T.Store.capacity result.0 ≡ final (fresh (S.Source.stock source) (T.Store.capacity texts)) (asks (take result.1 calls.now))) × T.Store.sound result.0.texts }
    ensures law { T.Store.sound texts → T.Store.pairs texts ≡ [] → Law (S.Source.stock source) (new (S.Source.stock source)) (told (S.Source.stock source).named (asks (take result.1 calls.now)) out.new) }
    ensures first { FirstTurns (S.Source.stock source) }
    ensures naming { T.Store.sound texts → T.Store.pairs texts ≡ [] → ((S.Source.stock result.0.source).reads ≡ (S.Source.stock source).reads) × ((S.Source.stock result.0.source).named ≡ (S.Source.stock source).named) }
{
    let mut reg = Register::open(room, source, texts);
    let served = calls.len().min(out.len());
    for (i, call) in calls[..served].iter().enumerate() {
        // By index: over `out.iter_mut().zip(calls)` it was tried and does not close, since nothing is known of a slice after a `zip` of its `iter_mut`.
        out[i] = reg.serve(call);
    }
    (reg, served)
}
