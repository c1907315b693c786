// Looking through the numbers of a roll.
ghost use Rattle.std.specs.Prelude.{◌≡◌, ◌<◌, ◌||◌, [], length, take, nat_le, slice_index};
ghost use Rattle.sources.specs.Lists.{has};
ghost use Rattle.sources.specs.Rolls.{first_wrong};

// Whether the number at an index is not below the total, met before, or the 4,097th.
#[tactic(auto, using(crate::proofs::Looks::has_any))]
fn wrong(numbers: &[u64], total: u64, i: usize) -> bool
    requires { i < length numbers.now }
    ensures { result ≡ (nat_le 4096 i || (nat_le total (slice_index numbers.now i) || has (slice_index numbers.now i) (take i numbers.now))) }
{
    i >= 4096 || numbers[i] >= total || numbers[..i].contains(&numbers[i])
}

// The index of the first number that a roll under a total cannot have, if there is one.
pub(crate) fn first_wrong(numbers: &[u64], total: u64) -> Option<usize>
    ensures { result ≡ first_wrong total [] numbers.now }
{
    (0..numbers.len()).find(|i| wrong(numbers, total, *i))
}
