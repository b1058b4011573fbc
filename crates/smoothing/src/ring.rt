// The last values of a number, 1 to 64 of them. A new value goes in the place of the oldest. The library's ring lies on the heap, which
// no axis may use, so this one keeps the place itself.
ghost use Rattle.std.specs.Prelude.{◌≡◌, ◌≤◌, length, replicate};
ghost use Rattle.smoothing.specs.Lengths.{length_for};
ghost use Rattle.smoothing.specs.Windows.{pushed, oldest};

use arrayvec::ArrayVec;
use std::marker::Model;
use std::mem;

#[derive(Drop)]
pub(crate) struct Ring {
    values: ArrayVec<u64, 64>,
    // The place of the oldest value, where the next one goes.
    next: usize,
}

// The values, newest first.
impl Model for Ring {
    ghost use Rattle.std.specs.Prelude.{ℕ, ◌<◌, List, length};
    ghost use Rattle.smoothing.specs.Windows.{newest_first};

    ghost Value = { List ℕ };

    ghost view = { λ r. newest_first r.next r.values.items };

    ghost invariant = { λ r. r.next < length r.values.items };
}

impl Ring {
    // `length` times `value`: 0 counts as 1, and more than 64 as 64.
    #[inline(always)]
    pub(crate) fn new(length: usize, value: u64) -> Ring
        ensures { result ≡ replicate (length_for length) value }
    {
        let mut values = ArrayVec::from([value; 64]);
        values.truncate(length.clamp(1, 64));
        Ring { values, next: 0 }
    }

    // How many values it keeps.
    pub(crate) fn len(&self) -> usize
        ensures length { result ≡ length self.now }
        ensures within { (1 ≤ result) × (result ≤ 64) }
    {
        self.values.len()
    }

    // Makes all of them equal to `value`, where they stand.
    pub(crate) fn refill(&mut self, value: u64)
        ensures { self.new ≡ replicate (length self.old) value }
    {
        self.values.fill(value);
        self.next = 0;
    }

    // Keeps `value` in place of the oldest, which it answers.
    pub(crate) fn push(&mut self, value: u64) -> u64
        ensures kept { self.new ≡ pushed value self.old }
        ensures oldest { result ≡ oldest value self.old }
    {
        let count = self.values.len();
        let place = self.next;
        // No remainder: a tick divides once, for the mean.
        self.next = if place + 1 < count { place + 1 } else { 0 };
        mem::replace(&mut self.values[place], value)
    }
}
