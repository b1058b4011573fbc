// Events, by their codes.
ghost use Rattle.std.specs.Prelude.{◌≡◌};
ghost use Rattle.block.specs.Events.{event_of};

use crate::refusal::Refusal;
use drive::direction::Direction;

#[derive(Clone, Copy, PartialEq, Eq, Debug)]
pub enum Event {
    // The limit in a direction, and whether it comes on.
    Limit(Direction, bool),
    // The E-stop, and whether it comes on.
    EStop(bool),
    // The drive trips.
    Trip,
}

impl TryFrom<i32> for Event {
    type Error = Refusal;

    ghost try_from_gives = { λ code answer. answer ≡ event_of code };

    fn try_from(code: i32) -> Result<Event, Refusal> {
        match code {
            1 => Ok(Event::Limit(Direction::Cw, true)),
            2 => Ok(Event::Limit(Direction::Cw, false)),
            3 => Ok(Event::Limit(Direction::Ccw, true)),
            4 => Ok(Event::Limit(Direction::Ccw, false)),
            5 => Ok(Event::EStop(true)),
            6 => Ok(Event::EStop(false)),
            7 => Ok(Event::Trip),
            _ => Err(Refusal::EventCode),
        }
    }
}
