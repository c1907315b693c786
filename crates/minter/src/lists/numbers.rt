// Lists of numbers: what stands in them, and where.
ghost use Rattle.std.specs.Prelude.{◌≡◌, ◌+◌, ◌<◌, not, position, vec_len, vec_capacity};
ghost use Rattle.sources.specs.Lists.{has};
ghost use Rattle.machine.specs.Machine.{outside, added, without};

// The place of the first number that is not held.
#[tactic(auto, using(sources::proofs::Looks::has_any))]
pub(crate) fn first_free(xs: &[u64], held: &[u64]) -> Option<usize>
    ensures { result ≡ position (λ x. not (has x held.now)) xs.now }
{
    xs.iter().position(|x| !held.contains(x))
}

// How many of ys are not among xs.
#[tactic(auto, using(crate::proofs::Found::outside_counted))]
pub(crate) fn outside(xs: &[u64], ys: &[u64]) -> usize
    ensures { result ≡ outside xs.now ys.now }
{
    ys.iter().filter(|y| !xs.contains(*y)).count()
}

// Puts n into an ascending list that has room.
pub(crate) fn add(xs: &mut Vec<u64>, n: u64)
    requires { vec_len xs.old < vec_capacity xs.old }
    ensures items { xs.new.items ≡ added n xs.old.items }
    ensures len { vec_len xs.new ≡ vec_len xs.old + 1 }
    ensures capacity { vec_capacity xs.new ≡ vec_capacity xs.old }
{
    let at = xs.iter().position(|x| *x > n).unwrap_or(xs.len());
    let _ = xs.insert(at, n);
}

// Takes n out of a list, if it is there.
pub(crate) fn remove(xs: &mut Vec<u64>, n: u64)
    ensures items { xs.new.items ≡ without n xs.old.items }
    ensures capacity { vec_capacity xs.new ≡ vec_capacity xs.old }
{
    if let Some(at) = xs.iter().position(|x| *x == n) {
        xs.remove(at);
    }
}
