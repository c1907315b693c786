// The law over runs, from any start that a register may have.
ghost use Rattle.std.specs.Prelude.{◌≡◌};
ghost use Rattle.machine.specs.Runs.{FromAnyStart, StaysSound, StaysMatched, SameNaming, PassedOnce};

// How many laws stand here: every run from a sound start has the law over runs; it leaves a sound register, so the limits stand after it; what
// its history says is what the register then has; its naming stays; and a number that a mint passes does not stand aside already.
pub fn laws_from_any_start() -> u8
    ensures count { result ≡ 5 }
    ensures law { FromAnyStart }
    ensures sound { StaysSound }
    ensures matched { StaysMatched }
    ensures naming { SameNaming }
    ensures once { PassedOnce }
{
    5
}
