// Lists of queued numbers with the seconds at which they are due.
ghost use Rattle.std.specs.Prelude.{◌≡◌, ◌+◌, ◌≤◌, true, false, min, map, filter, is_some, nat_le, vec_len, vec_capacity};
ghost use Rattle.std.specs.List.{reduce};
ghost use Rattle.sources.specs.Lists.{has, first, rest};
ghost use Rattle.machine.specs.declared.call.Due.{Due};
ghost use Rattle.machine.specs.Machine.{numbers, by, later_than, in_order};

use machine::call::Due;

// Whether n is queued in the list.
#[tactic(auto, using(crate::proofs::Found::has_queued))]
pub(crate) fn queued(dues: &[Due], n: u64) -> bool
    ensures { result ≡ has n (numbers dues.now) }
{
    dues.iter().any(|due| due.number == n)
}

// The soonest second at which something is due, by a second at the latest.
fn soonest(dues: &[Due], until: u64) -> Option<u64>
    ensures { result ≡ reduce min (map (λ (d : Due). d.second) (filter (λ (d : Due). nat_le d.second until) dues.now)) }
{
    dues.iter()
        .filter(|due| due.second <= until)
        .map(|due| due.second)
        .min()
}

// Takes out the first number due soonest, if one is due by then.
pub(crate) fn take_soonest(dues: &mut Vec<Due>, until: u64) -> Option<u64>
    ensures answer { result ≡ first (numbers (in_order (by until dues.old.items))) }
    ensures left { numbers (in_order (by until dues.new.items)) ≡ rest (numbers (in_order (by until dues.old.items))) }
    ensures later { later_than until dues.new.items ≡ later_than until dues.old.items }
    ensures len { is_some result ≡ true → vec_len dues.new + 1 ≡ vec_len dues.old }
    ensures fewer { vec_len dues.new ≤ vec_len dues.old }
    ensures same { is_some result ≡ false → dues.new ≡ dues.old }
    ensures capacity { vec_capacity dues.new ≡ vec_capacity dues.old }
{
    let second = soonest(dues, until)?;
    let at = dues.iter().position(|due| due.second == second)?;
    Some(dues.remove(at).number)
}
