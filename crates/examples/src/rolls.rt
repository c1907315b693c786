// The refusals of a roll, and of a register over one.
use crate::beginnings::{NO_TEXT, template};
use crate::tally::Tally;
use logs::Log;
use minter::register::Register;
use names::fault::Refusal;
use sources::roll::Roll;
use sources::source::Source;
use std::alloc::Global;

// Why a roll of such numbers is refused, if it is.
fn roll_refusal(numbers: &[u64]) -> anyhow::Result<Option<Refusal>> {
    let (_, fault) = Roll::new(template()?, numbers);
    Ok(fault.map(Refusal::from))
}

// Why a hold of a name is refused over a roll, if it is.
fn hold_refusal(heap: Global, numbers: &[u64], name: &[u8]) -> anyhow::Result<Option<Refusal>> {
    let (roll, _) = Roll::new(template()?, numbers);
    let mut records = [NO_TEXT; 2];
    let mut register = Register::new(heap, roll, Log::over(&mut records))?;
    Ok(register.hold(name).err().map(Refusal::from))
}

pub(crate) fn try_rolls(tally: &mut Tally<'_>) -> anyhow::Result<()> {
    let foreign = template()?.name(5);
    let came = hold_refusal(tally.heap(), &[3, 1], foreign.as_slice())?;
    tally.refusal("9, a name that is not on the roll", came, 9, 0)?;
    let came = roll_refusal(&[3, 1, 3])?;
    tally.refusal("26, a number twice on a roll", came, 26, 2)?;
    let came = roll_refusal(&[3, 10])?;
    tally.refusal("26, a number from the total on", came, 26, 1)
}
