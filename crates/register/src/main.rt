// register: the lines of a session on standard input, its reports on standard output.
#![tactic(auto)]

use serving::serve::serve;
use std::io::{Read, Write};

fn run(rt: &HostRuntime) -> anyhow::Result<()> {
    let mut input = Vec::new(rt.alloc());
    rt.stdin().read_to_end(&mut input)?;
    let reports = serve(rt.alloc(), input.as_slice())?;
    rt.stdout().write_all(reports.as_slice())?;
    Ok(())
}

fn main(rt: HostRuntime) -> anyhow::Result<()> {
    run(&rt)
}
