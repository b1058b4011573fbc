// The drive never refuses the advance of a tick.
#![tactic(auto)]

ghost use Rattle.std.specs.Prelude.{◌≡◌, true};
ghost use Rattle.unrefused.specs.Fits.{DriveTakesAll};

// Over any drive that goes 1 to 200 steps at once: the axis is fit at power-up, set-ups, blocks, events and ticks keep it fit, and
// in a tick of a fit axis the drive takes all the steps that are due. So the full stop of a refused tick never comes.
pub fn drive_takes_all() -> bool
    ensures taken { DriveTakesAll }
    ensures answer { result ≡ true }
{
    true
}
