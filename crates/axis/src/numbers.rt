// The numbers that a block says in pairs of words.
ghost use Rattle.std.specs.Prelude.{◌≡◌};
ghost use Rattle.block.specs.Pairs.{decoded};
ghost use Rattle.axis.specs.Judging.{heard, numbers_of};

use block::frame::Block;
use block::pair::Pair;
use block::refusal::Refusal;

// The number that two words say. Every pair is taken apart here, by `let .. else`, a form that the rules of the project ask for.
pub(crate) fn number(pair: Pair) -> Result<i32, Refusal>
    ensures { result ≡ heard (decoded pair) }
{
    let Some(number) = pair.decode() else {
        return Err(Refusal::Pair);
    };
    Ok(number)
}

// The numbers of a block that orders a move or a row, and the block itself for its rates.
#[derive(Clone, Copy)]
pub(crate) struct Numbers {
    pub block: Block,
    // A target, an offset or a distance; at a Resume the target that is held, of which the block says nothing.
    pub place: i32,
    pub speed: i32,
}

impl Numbers {
    // Those of both pairs.
    #[tactic(auto, unfolding(crate::specs::Judging::numbers_of))]
    pub(crate) fn read(block: Block) -> Result<Numbers, Refusal>
        ensures { result ≡ numbers_of block }
    {
        Ok(Numbers {
            block,
            place: number(block.place)?,
            speed: number(block.speed)?,
        })
    }
}
