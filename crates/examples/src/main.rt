// examples: worked sessions, published names and every refusal, each tried; what came is printed beside what should have.
#![tactic(auto)]

mod beginnings;
mod lengths;
mod lines;
mod places;
mod published;
mod refusals;
mod rolls;
mod room;
mod slips;
mod spoils;
mod tally;
mod worked;

use tally::Tally;

fn run(rt: &HostRuntime) -> anyhow::Result<()> {
    let mut tally = Tally::new(rt);
    worked::try_worked(&mut tally)?;
    places::try_places(&mut tally)?;
    published::try_names(&mut tally)?;
    refusals::try_lines(&mut tally)?;
    rolls::try_rolls(&mut tally)?;
    lengths::try_lengths(&mut tally)?;
    room::try_room(&mut tally)?;
    slips::try_slips(&mut tally)?;
    tally.print()
}

fn main(rt: HostRuntime) -> anyhow::Result<()> {
    run(&rt)
}
