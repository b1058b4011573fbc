// The two directions: clockwise is positive.
ghost use Rattle.std.specs.Prelude.{◌≡◌, min};
ghost use Rattle.drive.specs.Directions.{signed as signed_of, last_direction, toward as toward_of};

use std::cmp::Ordering;

#[derive(Clone, Copy, PartialEq, Eq, Debug)]
pub enum Direction {
    Cw,
    Ccw,
}

impl Direction {
    // So many steps in this direction; more than an `i32` holds count as the most that it does.
    pub fn signed(self, steps: u64) -> i32
        ensures { result ≡ signed_of self (min steps 2147483647) }
    {
        let size = i32::try_from(steps).unwrap_or(i32::MAX);
        match self {
            Direction::Cw => size,
            Direction::Ccw => -size,
        }
    }

    // The direction of `n`, or this one where `n` is 0.
    pub fn after(self, n: i32) -> Direction
        ensures { result ≡ last_direction self n }
    {
        match n.cmp(&0) {
            Ordering::Greater => Direction::Cw,
            Ordering::Less => Direction::Ccw,
            Ordering::Equal => self,
        }
    }

    // The direction from one place to another; clockwise where they are the same.
    pub fn toward(from: i32, to: i32) -> Direction
        ensures { result ≡ toward_of from to }
    {
        if to < from {
            Direction::Ccw
        } else {
            Direction::Cw
        }
    }
}
