// draws: the first line of standard input is a template, the second a count. It prints so many names in the order in which they are drawn.
#![tactic(auto)]

mod draw;

use anyhow::anyhow;
use draw::draw_name;
use names::fault::Refusal;
use names::name::Name;
use names::template::Template;
use sources::chooser::ByLetter;
use sources::generator::Generator;
use sources::source::Source;
use std::io::Read;

fn print_refusal(rt: &impl Print, refusal: Refusal) -> anyhow::Result<()> {
    println!(rt;
        "template refused {}, place {}",
        refusal.number, refusal.place
    )?;
    Ok(())
}

fn print_name(rt: &impl Print, number: u64, name: Name) -> anyhow::Result<()> {
    println!(rt; "{name} number {number}")?;
    Ok(())
}

fn print_names(rt: &impl Print, template: Template, count: u64) -> anyhow::Result<()> {
    let mut generator = Generator::new(ByLetter::of(&template), template);
    for _ in 0..count {
        let Some((number, name)) = draw_name(&mut generator) else {
            break;
        };
        print_name(rt, number, name)?;
    }
    let left = generator.left();
    println!(rt; "left: {left}")?;
    Ok(())
}

fn count_of(line: Option<&[u8]>) -> anyhow::Result<u64> {
    let line = line.ok_or_else(|| anyhow!("the second line, a count, is missing"))?;
    Ok(std::str::from_utf8(line)?.parse::<u64>()?)
}

fn print_draws(rt: &impl Print, input: &[u8]) -> anyhow::Result<()> {
    let mut lines = input.split(|b| *b == b'\n');
    match Template::read(lines.next().unwrap_or(&[])) {
        Ok(template) => print_names(rt, template, count_of(lines.next())?),
        Err(fault) => print_refusal(rt, fault.into()),
    }
}

fn run(rt: &HostRuntime) -> anyhow::Result<()> {
    let mut input = Vec::new(rt.alloc());
    rt.stdin().read_to_end(&mut input)?;
    print_draws(rt, input.as_slice())
}

fn main(rt: HostRuntime) -> anyhow::Result<()> {
    run(&rt)
}
