// The refusals of a list that is too short or too long for a store.
use crate::beginnings::NO_TALLY;
use crate::tally::Tally;
use chains::format::format;
use chains::node::Node;
use logs::check_length;
use names::fault::Refusal;
use std::alloc::{AllocError, Global};
use stores::tally::TallyKey;

fn chain_refusal(heap: Global, records: usize) -> Result<Option<Refusal>, AllocError> {
    let key = TallyKey { number: 0 };
    let mut nodes = vec![in heap; Node {
        key,
        value: 0u64,
        next: 0
    }; records]?;
    Ok(format(nodes.as_mut_slice()).err().map(Refusal::from))
}

pub(crate) fn try_lengths(tally: &mut Tally<'_>) -> anyhow::Result<()> {
    let came = chain_refusal(tally.heap(), 17)?;
    tally.refusal("25, a chain table of 17 records", came, 25, 0)?;
    let came = chain_refusal(tally.heap(), 65_537)?;
    tally.refusal("25, a chain table of 65,537 records", came, 25, 0)?;
    let came = check_length(&[NO_TALLY]).err().map(Refusal::from);
    tally.refusal("25, a log of one record", came, 25, 0)
}
