// The map of the live subcounters: five words, lowest bit first, as the rules have it.
ghost use Rattle.std.specs.Prelude.{◌≡◌, ℕ, ◌+◌, ◌*◌, ◌<◌, ◌≤◌, min, length, slice_index};
ghost use Rattle.sources.specs.Maps.{bits_from, live_in, run, lacks};

use std::array;

// How many bits of a word are set.
fn ones(word: u64) -> u64
    ensures counted { (b : ℕ) → result ≡ length (bits_from 64 b word) }
    ensures few { result ≤ 64 }
{
    word.count_ones() as u64
}

// The place of a word's set bit at an index, counted from the lowest; the word's bits have the places from `base` on.
fn place(word: u64, base: u64, index: u64) -> u64
    requires { (index < length (bits_from 64 base word)) × (base ≤ 256) }
    ensures { result ≡ slice_index (bits_from 64 base word) index }
{
    let mut left = word;
    for _ in 0..index {
        left &= left - 1;
    }
    base + left.trailing_zeros() as u64
}

// How many subcounters are live.
#[tactic(auto, using(crate::proofs::Words::live_sum))]
pub(crate) fn count(map: &[u64; 5]) -> u64
    ensures { result ≡ length (live_in 0 map.now) }
{
    map.iter().map(|word| ones(*word)).sum()
}

// The live subcounter at an index, counted from the lowest.
pub(crate) fn at(map: &[u64; 5], index: u64) -> u64
    requires { index < length (live_in 0 map.now) }
    ensures { result ≡ slice_index (live_in 0 map.now) index }
{
    let mut left = index;
    for (i, word) in map.iter().enumerate() {
        let here = ones(*word);
        if left < here {
            return place(*word, 64 * i as u64, left);
        }
        left -= here;
    }
    unreachable()
}

// The word whose lowest bits are set, as many as asked, up to all 64.
fn lowest(bits: u64) -> u64
    ensures { (b : ℕ) → bits_from 64 b result ≡ run b (min bits 64) }
{
    if bits >= 64 {
        u64::MAX
    } else {
        (1 << bits) - 1
    }
}

// The map in which the first `live` subcounters are live.
pub(crate) fn fresh(live: u64) -> [u64; 5]
    requires { live ≤ 320 }
    ensures { live_in 0 result ≡ run 0 live }
{
    array::from_fn(|i| lowest(live.saturating_sub(64 * i as u64)))
}

// The word without its bit at a place.
fn without(word: u64, bit: u64) -> u64
    requires { bit < 64 }
    ensures { (b : ℕ) → bits_from 64 b result ≡ lacks (b + bit) (bits_from 64 b word) }
{
    word & !(1 << bit)
}

// Subcounter c is live no more.
pub(crate) fn clear(map: &mut [u64; 5], c: usize)
    requires { c < 320 }
    ensures { live_in 0 map.new ≡ lacks c (live_in 0 map.old) }
{
    map[c / 64] = without(map[c / 64], (c % 64) as u64);
}
