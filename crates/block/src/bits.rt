// Words of sixteen bits.
ghost use Rattle.std.specs.Prelude.{◌≡◌, ℕ, not, ◌&&◌};
ghost use Rattle.block.specs.Words.{is_set, rising as rising_of, falls};

// The bits that are set now and were not in the word kept before.
#[tactic(auto, using(crate::proofs::BitLaws::rises))]
pub fn rising(kept: u16, bits: u16) -> u16
    ensures rising { result ≡ rising_of kept bits }
    ensures each { (k : ℕ) → is_set k result ≡ (is_set k bits && not (is_set k kept)) }
{
    bits & (bits ^ kept)
}

// Whether the bit of this mask was set in the word kept before and is not now.
pub fn falling(kept: u16, bits: u16, mask: u16) -> bool
    ensures { result ≡ falls mask kept bits }
{
    kept & mask != 0 && bits & mask == 0
}
