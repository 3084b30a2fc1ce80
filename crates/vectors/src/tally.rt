use crate::case::Replayed;

// What has been replayed: the comparisons and the wrong cases of the groups before, then of the
// present group the comparisons, the wrong cases and the sweeps.
#[derive(Default, Drop)]
pub(crate) struct Tally {
    pub all: usize,
    pub all_wrong: usize,
    pub comparisons: usize,
    pub wrong: usize,
    pub sweeps: usize,
}

impl Tally {
    pub(crate) fn add_case(&mut self, done: Replayed) {
        self.comparisons = self.comparisons.saturating_add(done.comparisons);
        if !done.same {
            self.wrong = self.wrong.saturating_add(1);
        }
    }

    pub(crate) fn end_sweep(&mut self) {
        self.sweeps = self.sweeps.saturating_add(1);
    }

    pub(crate) fn end_group(&mut self) {
        *self = Tally {
            all: self.all.saturating_add(self.comparisons),
            all_wrong: self.all_wrong.saturating_add(self.wrong),
            ..Tally::default()
        };
    }
}
