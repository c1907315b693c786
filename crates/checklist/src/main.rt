// checklist: the first line of standard input is a template, each later line a bare name as a crew read it back.
#![tactic(auto)]

mod sheet;

use names::fault::Refusal;
use names::template::Template;
use sheet::{Counts, check_name, count_names};
use std::io::Read;
use texts::piece_end;
use texts::pieces::Pieces;

fn print_refusal(rt: &impl Print, line: usize, refusal: Refusal) -> anyhow::Result<()> {
    println!(rt; "line {line}: {refusal}")?;
    Ok(())
}

fn print_verdicts(rt: &impl Print, template: &Template, text: &[u8]) -> anyhow::Result<()> {
    for (before, name) in Pieces::of(text, b'\n').enumerate() {
        let line = before.saturating_add(2);
        match check_name(template, name) {
            Ok(number) => println!(rt; "line {line}: number {number}")?,
            Err(refusal) => print_refusal(rt, line, refusal)?,
        }
    }
    Ok(())
}

fn print_sheet(rt: &impl Print, template: &Template, names: &[u8]) -> anyhow::Result<()> {
    println!(rt; "names: {}", template.total())?;
    print_verdicts(rt, template, names)?;
    let Counts { good, refused } = count_names(template, names);
    println!(rt; "good: {good}, refused: {refused}")?;
    Ok(())
}

fn print_answer(rt: &impl Print, input: &[u8]) -> anyhow::Result<()> {
    let end = piece_end(input, 0, b'\n');
    let names = input.get(end + 1..).unwrap_or(&[]);
    match Template::read(&input[..end]) {
        Ok(template) => print_sheet(rt, &template, names),
        Err(fault) => print_refusal(rt, 1, fault.into()),
    }
}

fn run(rt: &HostRuntime) -> anyhow::Result<()> {
    let mut input = Vec::new(rt.alloc());
    rt.stdin().read_to_end(&mut input)?;
    print_answer(rt, input.as_slice())
}

fn main(rt: HostRuntime) -> anyhow::Result<()> {
    run(&rt)
}
