// Makes calls of an axis over a bed.
ghost use Rattle.std.specs.Prelude.{◌≡◌};
ghost use Rattle.axis.specs.Axes.{meaning};
ghost use Rattle.longbed.specs.Outcomes.{Comes, MadeOn, Tells};
ghost use Rattle.longbed.specs.Starts.{prepared};

use crate::order::Start;
use crate::outcome::{End, Finished, Interrupted};
use crate::prepare::prepare;
use axis::axis::Axis;
use beds::choice::{OnBed, on_bed};
use beds::motor::Motor;
use beds::shape::Shaped;
use drive::traits::Drive;
use profile::traits::Profile;
use runs::call::Call;
use runs::operate::operate;
use std::alloc::Global;

// Calls that are to be made over a bed whose drive stands so at first.
#[derive(Drop)]
struct Calls<'a> {
    heap: Global,
    start: Start,
    calls: &'a [Call<'a>],
}

// What is told of an axis at the end.
fn end<D: Motor, P: Profile>(axis: &Axis<D, P>) -> End
    ensures tells { Tells (meaning D.Drive P.Profile axis.now) result }
    ensures coils { result.coils ≡ D.Motor.shown axis.now.drive }
{
    End {
        position: axis.position(),
        place: axis.drive().place(),
        coils: axis.drive().coil_byte(),
        flags: axis.flags(),
    }
}

impl OnBed for Calls<'_> {
    type Output = Result<Finished, Interrupted>;

    ghost Comes = { λ task g d shape p result. Comes g (prepared d task.start) p task.calls.now result };

    fn run<D: Motor + Drop, P: Shaped + Drop>(
        self,
        mut drive: D,
        profile: P,
    ) -> Result<Finished, Interrupted> {
        let Calls { heap, start, calls } = self;
        prepare(&mut drive, start);
        match operate(heap, drive, profile, calls) {
            Ok(operation) => Ok(Finished {
                end: end(&operation.axis),
                journal: operation.journal,
            }),
            Err(stopped) => Err(Interrupted {
                journal: stopped.operation.journal,
            }),
        }
    }
}

// Powers an axis up over the bed and makes the calls, one after the other, as far as there is memory for them.
pub fn make_calls(heap: Global, start: Start, calls: &[Call]) -> Result<Finished, Interrupted>
    ensures { MadeOn start calls.now result }
{
    on_bed(start.bed, Calls { heap, start, calls })
}
