// A count that rises and falls, and the most that it came to.
#[derive(Clone, Copy, Default)]
pub(crate) struct Level {
    now: u64,
    pub(crate) most: u64,
}

impl Level {
    pub(crate) fn rise(&mut self) {
        self.now = self.now.saturating_add(1);
        self.most = self.most.max(self.now);
    }

    pub(crate) fn fall(&mut self) {
        self.now = self.now.saturating_sub(1);
    }
}
