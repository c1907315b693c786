// The calls of a rehearsal.
use crate::dice::Dice;
use machine::call::Call;
use names::name::Name;
use stores::text::Element;

const ELEMENTS: [Element; 4] = [Element::Who, Element::What, Element::When, Element::Where];

// The index of a name; one time in forty none.
fn name_index(dice: &mut Dice, count: u64) -> Option<u64> {
    if dice.roll(40) == 0 {
        None
    } else {
        Some(dice.roll(count))
    }
}

// The name at an index, or a text that is none.
fn name_at(names: &[Name], index: Option<u64>) -> &[u8] {
    index
        .and_then(|i| names.get(i as usize))
        .map_or(b"26141/qx70l".as_slice(), |name| name.as_slice())
}

// Every other queuing has no delay.
fn delay(dice: &mut Dice) -> u64 {
    if dice.roll(2) == 0 { 0 } else { dice.roll(50) }
}

// The next call, at a time near the second.
pub(crate) fn next_call<'a>(dice: &mut Dice, names: &'a [Name], second: u64) -> Call<'a> {
    let name = name_at(names, name_index(dice, names.len() as u64));
    // one of the four elements, or none
    let element = ELEMENTS.get(dice.roll(5) as usize).copied();
    match dice.roll(100) {
        0..=29 => Call::Mint,
        30..=36 => Call::Hold(name),
        37..=49 => Call::Release(name),
        50..=79 => Call::Queue(name, delay(dice)),
        80..=84 => Call::Tick(second),
        85..=88 => Call::Bind(name, element, b"crew brief, fuel sheet 7"),
        _ => Call::Purge(name, element),
    }
}
