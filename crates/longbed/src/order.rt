// The order of a script's lines: the bed, then how its drive stands at first, then the calls.
ghost use Rattle.std.specs.Prelude.{◌≡◌};
ghost use Rattle.longbed.specs.Orders.{start_at, stage_after};
ghost use Rattle.script.specs.Readings.{line_means};

use bed::kind::BedKind;
use drive::position::is_position;
use script::line::Line;
use thiserror::Error;

// The bed, and how its drive stands before the first call.
#[derive(Clone, Copy, PartialEq, Eq, Debug)]
pub struct Start {
    pub bed: BedKind,
    pub place: i32,
    pub tripped: bool,
}

// How far a script has come.
#[derive(Clone, Copy, PartialEq, Eq, Debug)]
pub enum Stage {
    Unnamed,
    Preparing(Start),
    Calling(Start),
}

// Why a line cannot stand where it does.
#[derive(Clone, Copy, PartialEq, Eq, Debug, Error)]
pub enum OrderFault {
    #[error("no bed is named yet")]
    NoBed,
    #[error("the bed is named already")]
    SecondBed,
    #[error("only before the first call")]
    TooLate,
    #[error("the place is no position (-8388607 to 8388607)")]
    NoPosition,
}

// The same bed, with its drive at another place.
fn start_at(start: Start, place: i32) -> Result<Stage, OrderFault>
    ensures { result ≡ start_at start place }
{
    if is_position(place) {
        Ok(Stage::Preparing(Start { place, ..start }))
    } else {
        Err(OrderFault::NoPosition)
    }
}

impl Stage {
    // What a line makes of it, or why the line cannot stand here.
    pub fn after(self, line: &Line) -> Result<Stage, OrderFault>
        ensures { result ≡ stage_after self (line_means line.now) }
    {
        match (self, line) {
            (stage, Line::Blank) => Ok(stage),
            (Stage::Unnamed, Line::Bed(bed)) => {
                Ok(Stage::Preparing(Start {
                    bed: *bed,
                    place: 0,
                    tripped: false,
                }))
            }
            (Stage::Unnamed, _) => Err(OrderFault::NoBed),
            (_, Line::Bed(_)) => Err(OrderFault::SecondBed),
            (Stage::Preparing(start), Line::At(place)) => start_at(start, *place),
            (Stage::Preparing(start), Line::Tripped) => {
                Ok(Stage::Preparing(Start {
                    tripped: true,
                    ..start
                }))
            }
            (Stage::Calling(_), Line::At(_) | Line::Tripped) => Err(OrderFault::TooLate),
            (Stage::Preparing(start) | Stage::Calling(start), _) => Ok(Stage::Calling(start)),
        }
    }
}
