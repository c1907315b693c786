// The subcounters of a generator: how many numbers each gave, and which are live.
ghost use Rattle.std.specs.Prelude.{◌≡◌, ◌+◌, ◌^◌, ◌≤◌, length};
ghost use Rattle.sources.specs.Maps.{live_in};
ghost use Rattle.sources.specs.Subcounters.{share_of, left_from, live_from};

pub(crate) mod calls;

// Draw number and map are functions of the counts.
#[derive(Clone, Copy)]
pub(crate) struct Subcounters {
    total: u64,
    share: u64,
    draws: u64,
    counts: [u64; 293],
    map: [u64; 5],
    ghost long: { length counts ≡ 293 },
    ghost small: { total ≤ 2 ^ 39 },
    ghost shared: { share ≡ share_of total },
    ghost counted: { draws + left_from total share 0 counts ≡ total },
    ghost mapped: { live_in 0 map ≡ live_from total share 0 counts },
}
