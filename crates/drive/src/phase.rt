// The phase drive: a count of steps and the phase of its coils.
ghost use Rattle.std.specs.Prelude.{◌<◌};

use crate::stepper::Stepper;

mod calls;

pub type PhaseDrive = Stepper<Phase>;

// One of eight phases. That it is stands in a ghost field, so every caller that holds a phase drive knows it.
#[derive(Drop)]
pub struct Phase {
    number: u8,
    ghost turns: { number < 8 },
}
