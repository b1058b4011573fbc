// How far a plan has gone.
ghost use Rattle.std.specs.Prelude.{◌≤◌};
ghost use Rattle.profile.specs.Plans.{millisteps_of};

use crate::plan::Plan;

mod calls;

// The latest plan, if there was one, and the millisteps asked for and gone.
#[derive(Drop)]
pub struct Progress {
    plan: Option<Plan>,
    asked: u64,
    gone: u64,
    pub ghost reached: { gone ≤ asked },
    pub ghost within: { asked ≤ millisteps_of plan },
}
