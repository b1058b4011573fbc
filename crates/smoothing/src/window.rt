// What a profile had gone at its last ticks.
ghost use Rattle.std.specs.Prelude.{◌≡◌, sum};
ghost use Rattle.smoothing.specs.Windows.{mean_of, Kept};
ghost use Rattle.smoothing.specs.Keeps.{kept_prop};

use crate::ring::Ring;
use crate::standing::Standing;

mod calls;

#[derive(Drop)]
pub(crate) struct Window {
    pub(crate) kept: Ring,
    // The sum of the values and their mean, kept so that a new value costs one division and nothing goes over the ring.
    total: u64,
    mean: u64,
    // Where the profile stood when the newest value was kept. A value rises by at most the top over the one before. No call reads it: the
    // invariants rest on it, and a ghost field holds a fact and no number.
    standing: Standing,
    ghost summed: { total ≡ sum kept },
    ghost averaged: { mean ≡ mean_of kept },
    ghost steady: { Kept standing.top standing.gone kept } by { kept_prop standing.top standing.gone kept },
}
