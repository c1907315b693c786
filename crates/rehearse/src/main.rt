// rehearse: a rehearsal of so many calls, drawn by fixed dice, through one register; the count is the argument. The law's counts are
// taken again, apart from the register, and what was done is printed.
#![tactic(auto)]

mod dice;
mod kind;
mod ledger;
mod level;
mod script;

use anyhow::anyhow;
use chains::Chain;
use chains::format::format;
use chains::node::Node;
use dice::Dice;
use kind::{KINDS, Kind};
use ledger::{Counts, Ledger};
use machine::call::{Answer, Call};
use machine::text::Text;
use names::name::Name;
use names::template::Template;
use runs::run::run;
use script::next_call;
use sources::chooser::ByLetter;
use sources::generator::Generator;
use std::alloc::{AllocError, Global};
use std::env;
use stores::text::{Element, TextKey};

// All names of a template.
fn all_names(heap: Global, template: &Template) -> Result<Vec<Name>, AllocError> {
    (0..template.total())
        .map(|n| template.name(n))
        .collect(heap)
}

fn all_calls<'a>(heap: Global, names: &'a [Name], count: u64) -> Result<Vec<Call<'a>>, AllocError> {
    let mut dice = Dice::new(2026);
    (0..count)
        .map(|i| next_call(&mut dice, names, i / 4))
        .collect(heap)
}

fn account(heap: Global, calls: &[Call<'_>], answers: &[Answer]) -> Result<Ledger, AllocError> {
    let mut ledger = Ledger::new(heap);
    for (call, answer) in calls.iter().zip(answers.iter()) {
        ledger.note(call, answer)?;
    }
    Ok(ledger)
}

fn print_ledger(rt: &impl Print, ledger: &Ledger) -> anyhow::Result<()> {
    for kind in KINDS {
        let Counts { asked, accepted } = ledger.counts(kind);
        println!(rt; "{kind}: {asked} asked, {accepted} accepted")?;
    }
    for (number, count) in ledger.refused.iter() {
        println!(rt; "refused {number}: {count}")?;
    }
    let minted = ledger.counts(Kind::Mint).accepted;
    let names = ledger.names();
    println!(rt; "minted: {minted}, different names: {names}")?;
    let held = ledger.held.most;
    let queued = ledger.queued.most;
    println!(rt; "most held: {held}, most queued: {queued}")?;
    let agree = if ledger.agrees() { "agree" } else { "DISAGREE" };
    println!(rt; "the counts {agree}")?;
    Ok(())
}

fn rehearse(rt: &HostRuntime, template: Template, count: u64) -> anyhow::Result<()> {
    let heap = rt.alloc();
    let names = all_names(heap, &template)?;
    let calls = all_calls(heap, names.as_slice(), count)?;
    let key = TextKey {
        number: 0,
        element: Element::Who,
    };
    let mut nodes = vec![in heap; Node {
        key,
        value: Text::new(),
        next: 0
    }; 529]?;
    format(nodes.as_mut_slice()).map_err(|_| anyhow!(
        "the chain table has no length that it may have"
    ))?;
    let texts = Chain::over(nodes.as_mut_slice());
    let source = Generator::new(ByLetter::of(&template), template);
    let (_, answers) = run(heap, source, texts, calls.as_slice())?;
    let ledger = account(heap, calls.as_slice(), answers.as_slice())?;
    print_ledger(rt, &ledger)
}

fn count_asked(rt: &HostRuntime) -> anyhow::Result<u64> {
    let mut count = 10_000;
    for word in env::args(rt)?.skip(1) {
        count = word.as_str().parse::<u64>()?;
    }
    Ok(count)
}

fn perform(rt: &HostRuntime) -> anyhow::Result<()> {
    let count = count_asked(rt)?;
    let template = Template::read(b"26141/qx7.redk").map_err(|_| anyhow!("the template is none"))?;
    rehearse(rt, template, count)
}

fn main(rt: HostRuntime) -> anyhow::Result<()> {
    perform(&rt)
}
