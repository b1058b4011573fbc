// Whole runs: any calls, in any order, from power-up on.
ghost use Rattle.std.specs.Prelude.{◌≡◌, ℕ, take, MatchResult};
ghost use Rattle.axis.specs.Axes.{meaning};
ghost use Rattle.runs.specs.Journals.{Ran};

use crate::call::Call;
use crate::operation::Operation;
use drive::traits::Drive;
use profile::traits::Profile;
use std::alloc::Global;

// A run that stopped between two calls for want of memory, with all that it did.
#[derive(Drop)]
pub struct Stopped<D, P> {
    pub operation: Operation<D, P>,
}

// Powers an axis up over a drive and a profile and makes the calls, one after the other. Whatever they are, the run keeps the law; so does
// one that stops for want of memory, which has made the first of them.
pub fn operate<D: Drive, P: Profile>(
    heap: Global,
    drive: D,
    profile: P,
    calls: &[Call],
) -> Result<Operation<D, P>, Stopped<D, P>>
    ensures { MatchResult result (λ o. Ran D.Drive.G (D.Drive.means drive) (P.Profile.means profile) calls.now o.journal.items (meaning D.Drive P.Profile o.axis)) (λ s. (n : ℕ) × Ran D.Drive.G (D.Drive.means drive) (P.Profile.means profile) (take n calls.now) s.operation.journal.items (meaning D.Drive P.Profile s.operation.axis)) }
{
    let mut operation = Operation::power_up(heap, drive, profile);
    for call in calls {
        let Ok(()) = operation.make(heap, *call) else {
            return Err(Stopped { operation });
        };
    }
    Ok(operation)
}
