// Steps that are due: they must reach a drive exactly once.
ghost use Rattle.std.specs.Prelude.{◌≡◌, ◌-◌, ◌/◌};

use crate::direction::Direction;

mod delivery;

// It is not `Drop` and its fields are private, so a delivery is the only way to end it.
pub struct StepToken {
    steps: u64,
    direction: Direction,
}

impl StepToken {
    // The whole steps of `gone` millisteps, less the steps already sent.
    pub fn count(gone: u64, sent: u64, direction: Direction) -> StepToken
        ensures { result ≡ record { steps = gone / 1000 - sent; direction = direction } }
    {
        StepToken {
            steps: (gone / 1000).saturating_sub(sent),
            direction,
        }
    }
}
