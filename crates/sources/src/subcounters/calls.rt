// What subcounters do.
ghost use Rattle.std.specs.Prelude.{◌≡◌, ◌-◌, ◌^◌, ◌<◌, ◌≤◌, length, slice_index};
ghost use Rattle.sources.specs.Counted.{lives, gives, Unused, GaveOne};
ghost use Rattle.sources.specs.Subcounters.{covered, standing};

use super::Subcounters;
use crate::livemap::{at, clear, count, fresh};
use crate::source::Stand;

impl Subcounters {
    // Over the numbers below a total, none given.
    pub(crate) fn new(total: u64) -> Subcounters
        requires { total ≤ 2 ^ 39 }
        ensures { Unused total result }
    {
        let share = total / 293 + 1;
        let map = fresh(total.div_ceil(share));
        Subcounters {
            total,
            share,
            draws: 0,
            counts: [0; 293],
            map,
        }
    }

    // How many numbers subcounter c covers.
    fn size(&self, c: usize) -> u64
        requires { c < 293 }
        ensures { result ≡ covered self.now.total self.now.share c }
    {
        self.share
            .min(self.total.saturating_sub(c as u64 * self.share))
    }

    // How many subcounters are live.
    pub(crate) fn live(&self) -> u64
        ensures { result ≡ length (lives self.now) }
    {
        count(&self.map)
    }

    // The live subcounter at an index, counted from the lowest.
    fn find(&self, index: u64) -> usize
        requires { index < length (lives self.now) }
        ensures found { result ≡ slice_index (lives self.now) index }
        ensures inside { result < 293 }
        ensures some { slice_index self.now.counts result < covered self.now.total self.now.share result }
    {
        at(&self.map, index) as usize
    }

    // The next number of the live subcounter at an index, which is given from then on.
    pub(crate) fn give(&mut self, index: u64) -> u64
        requires { index < length (lives self.old) }
        ensures number { result ≡ gives self.old index }
        ensures after { GaveOne self.old index self.new }
    {
        let c = self.find(index);
        let before = self.counts[c];
        let spent = before + 1 == self.size(c);
        let number = c as u64 * self.share + before;
        self.counts[c] = before + 1;
        self.draws += 1;
        if spent {
            clear(&mut self.map, c);
        }
        number
    }

    // Where n stands.
    pub(crate) fn stand(&self, n: u64) -> Stand
        ensures { result ≡ standing self.now.total self.now.share self.now.counts n }
    {
        if n >= self.total {
            return Stand::Foreign;
        }
        let c = (n / self.share) as usize;
        if self.counts[c] <= n % self.share {
            Stand::Ahead
        } else {
            Stand::Given
        }
    }

    // How many numbers were drawn.
    pub(crate) fn draws(&self) -> u64
        ensures { result ≡ self.now.draws }
    {
        self.draws
    }

    // How many numbers are left.
    pub(crate) fn left(&self) -> u64
        ensures { result ≡ self.now.total - self.now.draws }
    {
        self.total - self.draws
    }
}
