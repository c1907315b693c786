// Runs over the sources that a template makes, in memory reserved before, so that they cannot fail.
ghost use Rattle.std.specs.Prelude.{◌≡◌, min, [], ◌++◌, length, take, drop};
ghost use Rattle.names.specs.Naming.{name_of};
ghost use Rattle.names.specs.Templates.{form};
ghost use Rattle.sources.specs.Generators.{gen_stock};
ghost use Rattle.sources.specs.Named.{total_of};
ghost use Rattle.sources.specs.RollMeans.{roll_stock};
ghost use Rattle.sources.specs.Rolls.{first_wrong, refusal_at};
ghost use Rattle.machine.specs.Calls.{asks};
ghost use Rattle.machine.specs.History.{told};
ghost use Rattle.machine.specs.Law.{Law, new};
ghost use Rattle.machine.specs.Machine.{answers, final, fresh};
ghost use Rattle.minter.specs.Meaning.{meaning};
ghost use Rattle.runs.specs.Sources.{generated, rolled, taken, Whole, Listed};

use crate::run::run_in;
use machine::call::{Answer, Call};
use machine::text::Text;
use minter::register::{Register, Room};
use names::template::Template;
use sources::chooser::Chooser;
use sources::fault::SourceFault;
use sources::generator::Generator;
use sources::roll::Roll;
use stores::store::Store;
use stores::text::TextKey;

// A run over a new generator: all names of the template, each with its first turn to come, whatever the chooser answers.
pub fn run_generator<C: Chooser, T: Store<TextKey, Text>>(
    room: Room,
    chooser: C,
    template: Template,
    texts: T,
    calls: &[Call<'_>],
    out: &mut [Answer],
) -> (Register<Generator<C>, T>, usize)
    ensures served { result.1 ≡ min (length calls.now) (length out.old) }
    ensures answers { T.Store.sound texts → T.Store.pairs texts ≡ [] → out.new ≡ answers (fresh (generated (C.Chooser.pick chooser) template) (T.Store.capacity texts)) (asks (take result.1 calls.now)) ++ drop result.1 out.old }
    ensures after { T.Store.sound texts → T.Store.pairs texts ≡ [] → (meaning (gen_stock C.Chooser.pick) T.Store.pairs T.Store.capacity result.0 ≡ final (fresh (generated (C.Chooser.pick chooser) template) (T.Store.capacity texts)) (asks (take result.1 calls.now))) × T.Store.sound result.0.texts }
    ensures law { T.Store.sound texts → T.Store.pairs texts ≡ [] → Law (generated (C.Chooser.pick chooser) template) (new (generated (C.Chooser.pick chooser) template)) (told (name_of (form template)) (asks (take result.1 calls.now)) out.new) }
    ensures whole { Whole template (generated (C.Chooser.pick chooser) template) }
{
    let source = Generator::new(chooser, template);
    run_in(room, source, texts, calls, out)
}

// A run over a new roll, with the fault of its list, if there is one; the roll is then empty.
// It answers what `run_in` does and the fault beside it, for a wrong list too: so it is no `Result`.
pub fn run_roll<'a, T: Store<TextKey, Text>>(
    room: Room,
    template: Template,
    numbers: &'a [u64],
    texts: T,
    calls: &[Call<'_>],
    out: &mut [Answer],
) -> (Register<Roll<'a>, T>, usize, Option<SourceFault>)
    ensures served { result.1 ≡ min (length calls.now) (length out.old) }
    ensures fault { result.2 ≡ refusal_at (first_wrong (total_of template) [] numbers.now) }
    ensures answers { T.Store.sound texts → T.Store.pairs texts ≡ [] → out.new ≡ answers (fresh (rolled template numbers.now) (T.Store.capacity texts)) (asks (take result.1 calls.now)) ++ drop result.1 out.old }
    ensures after { T.Store.sound texts → T.Store.pairs texts ≡ [] → (meaning roll_stock T.Store.pairs T.Store.capacity result.0 ≡ final (fresh (rolled template numbers.now) (T.Store.capacity texts)) (asks (take result.1 calls.now))) × T.Store.sound result.0.texts }
    ensures law { T.Store.sound texts → T.Store.pairs texts ≡ [] → Law (rolled template numbers.now) (new (rolled template numbers.now)) (told (name_of (form template)) (asks (take result.1 calls.now)) out.new) }
    ensures listed { Listed template (taken template numbers.now) (rolled template numbers.now) }
{
    let (roll, fault) = Roll::new(template, numbers);
    let (register, served) = run_in(room, roll, texts, calls, out);
    (register, served, fault)
}
