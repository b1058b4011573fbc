// What a window does.
ghost use Rattle.std.specs.Prelude.{◌≡◌, ◌+◌, ◌≤◌, length, replicate};
ghost use Rattle.smoothing.specs.Lengths.{length_for};
ghost use Rattle.smoothing.specs.Windows.{mean_of, pushed};

use super::Window;
use crate::ring::Ring;
use crate::standing::Standing;

impl Window {
    // Over the last `length` ticks, 1 to 64: 0 counts as 1, and more as 64. All values are what the profile has gone.
    #[inline(always)]
    pub(crate) fn new(length: usize, standing: Standing) -> Window
        ensures kept { result.kept ≡ replicate (length_for length) standing.gone }
        ensures standing { result.standing ≡ standing }
    {
        let gone = standing.gone;
        let kept = Ring::new(length, gone);
        let total = gone * kept.len() as u64;
        Window {
            kept,
            total,
            mean: gone,
            standing,
        }
    }

    // Keeps what the profile has gone in place of the oldest value, and answers by how much the mean rises. It divides once: the
    // mean before was kept.
    pub(crate) fn push(&mut self, standing: Standing) -> u32
        requires rises { (self.old.standing.gone ≤ standing.gone)
            × (standing.gone ≤ self.old.standing.gone + self.old.standing.top) }
        requires top { standing.top ≡ self.old.standing.top }
        ensures kept { self.new.kept ≡ pushed standing.gone self.old.kept }
        ensures rise { mean_of self.old.kept + result ≡ mean_of self.new.kept }
        ensures standing { self.new.standing ≡ standing }
    {
        let count = self.kept.len() as u64;
        let total = self.total + standing.gone - self.kept.push(standing.gone);
        let mean = total / count;
        let rise = mean - self.mean;
        self.total = total;
        self.mean = mean;
        self.standing = standing;
        rise as u32
    }

    // Makes all values equal to what the profile has gone.
    pub(crate) fn refill(&mut self, standing: Standing)
        ensures kept { self.new.kept ≡ replicate (length self.old.kept) standing.gone }
        ensures standing { self.new.standing ≡ standing }
    {
        let gone = standing.gone;
        self.kept.refill(gone);
        self.total = gone * self.kept.len() as u64;
        self.mean = gone;
        self.standing = standing;
    }

    // The mean of its values, rounded down.
    pub(crate) fn mean(&self) -> u64
        ensures { result ≡ mean_of self.now.kept }
    {
        self.mean
    }
}
