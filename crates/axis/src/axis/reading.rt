// The reading call.
ghost use Rattle.std.specs.Prelude.{◌≡◌, ◌≤◌, cond};
ghost use Rattle.axis.specs.Axes.{meaning};
ghost use Rattle.axis.specs.Readings.{status_of, inputs_of, status_words, BitsSay, reading_answer, filled};

use crate::axis::Axis;
use block::pair::Pair;
use block::refusal::Refusal;
use drive::direction::Direction;
use drive::traits::Drive;
use profile::traits::Profile;

// What a bit adds to a word, where it is on.
fn flag(bit: u16, on: bool) -> u16
    ensures value { result ≡ cond on bit 0 }
    ensures most { result ≤ bit }
{
    if on { bit } else { 0 }
}

impl<D: Drive, P: Profile> Axis<D, P> {
    // Word 0: what the axis does, and the flags that it tells of itself.
    fn status(&self) -> u16
        ensures value { result ≡ status_of (meaning D.Drive P.Profile self.now) }
        ensures most { result ≤ 32767 }
    {
        let flags = self.memory.flags;
        let state = self.memory.state;
        flag(1 << 14, true)
            + flag(1 << 13, flags.configuration)
            + flag(1 << 12, flags.command)
            + flag(1 << 11, flags.input)
            + flag(1 << 10, flags.invalid)
            + flag(1 << 9, self.memory.waits())
            + flag(1 << 8, state.programs())
            + flag(1 << 7, flags.complete)
            + flag(1 << 6, self.memory.decelerates())
            + flag(1 << 5, self.memory.accelerates())
            + flag(1 << 3, !state.is_moving())
            + flag(1 << 2, state.is_held())
            + flag(1 << 1, state.moves(Direction::Ccw))
            + flag(1 << 0, state.moves(Direction::Cw))
    }

    // Word 1: whether the drive is tripped, and the levels of the inputs.
    fn inputs(&self) -> u16
        ensures value { result ≡ inputs_of (meaning D.Drive P.Profile self.now) }
        ensures most { result ≤ 32767 }
    {
        let levels = self.memory.levels;
        flag(1 << 7, self.drive.tripped())
            + flag(1 << 2, levels.estop)
            + flag(1 << 1, levels.limits.ccw)
            + flag(1 << 0, levels.limits.cw)
    }

    // The words of a reading: both of these, the pair of the position, and six that are 0.
    #[tactic(auto, using(crate::proofs::Readings::bits_say))]
    pub fn status_words(&self) -> [i16; 10]
        ensures words { result ≡ status_words (meaning D.Drive P.Profile self.now) }
        ensures bits { BitsSay (meaning D.Drive P.Profile self.now) }
    {
        let position = Pair::encode(self.drive.place()).unwrap();
        [
            self.status() as i16,
            self.inputs() as i16,
            position.first,
            position.second,
            0,
            0,
            0,
            0,
            0,
            0,
        ]
    }

    // Writes the words of a reading into a buffer, which has to have room for them.
    pub fn reading(&self, buffer: &mut [i16]) -> Result<(), Refusal>
        ensures answer { result ≡ reading_answer buffer.old }
        ensures words { buffer.new ≡ filled (status_words (meaning D.Drive P.Profile self.now)) buffer.old }
    {
        let Some(words) = buffer.first_chunk_mut::<10>() else {
            return Err(Refusal::ShortBuffer);
        };
        *words = self.status_words();
        Ok(())
    }
}
