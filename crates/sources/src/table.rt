// The worked examples of the rules, proved together.
ghost use Rattle.std.specs.Prelude.{◌≡◌, length};
ghost use Rattle.sources.specs.Table.{table, Holds};

// How many worked examples there are; each of them holds.
pub fn worked_examples() -> usize
    ensures count { result ≡ length table }
    ensures holds { Holds table }
{
    21
}
