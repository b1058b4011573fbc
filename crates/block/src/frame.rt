// A block: ten words, each in its place.
ghost use Rattle.std.specs.Prelude.{◌≡◌};
ghost use Rattle.block.specs.Frames.{block_of, is_dwell_of, direction_of, clears_trip_of};
ghost use Rattle.block.specs.Words.{meets};

use crate::pair::Pair;
use crate::refusal::Refusal;
use drive::direction::Direction;

// The bits of word 0 that have no meaning: 5 to 8, 14 and 15.
const RESERVED: u16 = 0xc1e0;

// The bits of word 1 that have one.
const DWELL: u16 = 0x0001;

const COUNTERCLOCKWISE: u16 = 0x0002;

const CLEAR_TRIP: u16 = 0x0400;

#[derive(Clone, Copy, PartialEq, Eq, Debug)]
pub struct Block {
    // Word 0: the command bits.
    pub bits: u16,
    // Word 1: how a command is meant.
    pub options: u16,
    // Words 2 and 3: a target, offset, preset or distance.
    pub place: Pair,
    // Words 4 and 5.
    pub speed: Pair,
    // Words 6 to 8.
    pub accel: i16,
    pub decel: i16,
    pub dwell: i16,
}

// The block that some words are, if they are ten and have no bit without a meaning.
impl TryFrom<&[i16]> for Block {
    type Error = Refusal;

    ghost try_from_gives = { λ words answer. answer ≡ block_of words.now };

    fn try_from(words: &[i16]) -> Result<Block, Refusal> {
        let &[
            command,
            options,
            place,
            places,
            speed,
            speeds,
            accel,
            decel,
            dwell,
            _,
        ] = words
        else {
            return Err(Refusal::WordCount);
        };
        let bits = command.cast_unsigned();
        if bits & RESERVED != 0 {
            return Err(Refusal::ReservedBits);
        }
        Ok(Block {
            bits,
            options: options.cast_unsigned(),
            place: Pair {
                first: place,
                second: places,
            },
            speed: Pair {
                first: speed,
                second: speeds,
            },
            accel,
            decel,
            dwell,
        })
    }
}

impl Block {
    // Whether a bit of word 1 is set.
    fn has(self, option: u16) -> bool
        ensures { result ≡ meets option self.options }
    {
        self.options & option != 0
    }

    // Whether a Run is a dwell move, and no blend.
    pub fn is_dwell(self) -> bool
        ensures { result ≡ is_dwell_of self }
    {
        self.has(DWELL)
    }

    // Where a blend goes: clockwise unless its bit is set.
    pub fn direction(self) -> Direction
        ensures { result ≡ direction_of self }
    {
        if self.has(COUNTERCLOCKWISE) {
            Direction::Ccw
        } else {
            Direction::Cw
        }
    }

    // Whether Reset Errors clears the trip too.
    pub fn clears_trip(self) -> bool
        ensures { result ≡ clears_trip_of self }
    {
        self.has(CLEAR_TRIP)
    }
}
