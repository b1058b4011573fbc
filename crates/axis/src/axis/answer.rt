// The block call.
ghost use Rattle.std.specs.Prelude.{◌≡◌, false, is_ok};
ghost use Rattle.block.specs.Frames.{block_of};
ghost use Rattle.axis.specs.Axes.{meaning};
ghost use Rattle.axis.specs.Carrying.{calls_drive, calls_profile};
ghost use Rattle.axis.specs.Blocks.{kept_axis, block_order, answered, finished, UsesBy, calls, block_answer, block_after, BlockUses, block_calls};

use crate::axis::Axis;
use block::bits::rising;
use block::frame::Block;
use block::refusal::Refusal;
use drive::traits::Drive;
use profile::traits::Profile;

impl<D: Drive, P: Profile> Axis<D, P> {
    // A block whose words can be read: its word is kept, it is judged, and carried out or refused.
    fn obey(&mut self, block: Block) -> Result<(), Refusal>
        ensures answer { result ≡ answered (block_order D.Drive.G (meaning D.Drive P.Profile self.old) block) }
        ensures after { meaning D.Drive P.Profile self.new ≡ finished (kept_axis (meaning D.Drive P.Profile self.old) block) (block_order D.Drive.G (meaning D.Drive P.Profile self.old) block) (P.Profile.means self.new.profile) }
        ensures uses { UsesBy (kept_axis (meaning D.Drive P.Profile self.old) block) (block_order D.Drive.G (meaning D.Drive P.Profile self.old) block) (P.Profile.means self.new.profile) }
        ensures drive { calls calls_drive (block_order D.Drive.G (meaning D.Drive P.Profile self.old) block) ≡ false → self.new.drive ≡ self.old.drive }
        ensures profile { calls calls_profile (block_order D.Drive.G (meaning D.Drive P.Profile self.old) block) ≡ false → self.new.profile ≡ self.old.profile }
    {
        let risen = rising(self.memory.kept, block.bits);
        self.memory.keep(block.bits);
        match self.judge(risen, block) {
            Ok(order) => {
                self.carry(order);
                Ok(())
            }
            Err(refusal) => {
                self.memory.mark(refusal);
                Err(refusal)
            }
        }
    }

    // One block of command words, which are only read. It is refused with the first question whose answer is no.
    pub fn block(&mut self, words: &[i16]) -> Result<(), Refusal>
        ensures answer { result ≡ block_answer D.Drive.G (meaning D.Drive P.Profile self.old) (block_of words.now) }
        ensures after { meaning D.Drive P.Profile self.new ≡ block_after D.Drive.G (meaning D.Drive P.Profile self.old) (block_of words.now) (P.Profile.means self.new.profile) }
        ensures uses { BlockUses D.Drive.G (meaning D.Drive P.Profile self.old) (block_of words.now) (P.Profile.means self.new.profile) }
        ensures unread { is_ok (block_of words.now) ≡ false → self.new ≡ self.old }
        ensures drive { block_calls calls_drive D.Drive.G (meaning D.Drive P.Profile self.old) (block_of words.now) ≡ false → self.new.drive ≡ self.old.drive }
        ensures profile { block_calls calls_profile D.Drive.G (meaning D.Drive P.Profile self.old) (block_of words.now) ≡ false → self.new.profile ≡ self.old.profile }
    {
        let block = Block::try_from(words)?;
        self.obey(block)
    }
}
