// Smoothing: a profile over any profile. What it has gone is the mean of what the profile below had gone at its last ticks.
#![tactic(auto)]

mod ring;
pub mod smoothed;
mod standing;
mod window;
