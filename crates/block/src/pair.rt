// A number in two words: thousands and the rest, neither with the opposite sign of the other.
ghost use Rattle.std.specs.Prelude.{◌≡◌, ℤ, Some};
ghost use Rattle.block.specs.Pairs.{opposite as opposite_of, joined as joined_of, decoded, encoded};

#[derive(Clone, Copy, PartialEq, Eq, Debug)]
pub struct Pair {
    pub first: i16,
    pub second: i16,
}

// Whether one is below 0 and the other above.
fn opposite(a: i16, b: i16) -> bool
    ensures { result ≡ opposite_of a b }
{
    (a < 0 && 0 < b) || (0 < a && b < 0)
}

// The number that two words say together.
fn joined(first: i16, second: i16) -> i32
    ensures { result ≡ joined_of first second }
{
    1000 * i32::from(first) + i32::from(second)
}

// `decode` and `encode` are names that the rules of the project give, so the conversions of a pair are these two, and no `TryFrom`
// stands beside them.
impl Pair {
    // The number that the words say, if they are a pair; it has no other pair.
    pub fn decode(self) -> Option<i32>
        ensures number { result ≡ decoded self }
        ensures back { (n : ℤ) → result ≡ Some n → encoded n ≡ Some self }
    {
        if opposite(self.first, self.second) || self.second.unsigned_abs() >= 1000 {
            return None;
        }
        Some(joined(self.first, self.second))
    }

    // The pair that says a number, if one can.
    pub fn encode(n: i32) -> Option<Pair>
        ensures pair { result ≡ encoded n }
        ensures back { (p : Pair) → result ≡ Some p → decoded p ≡ Some n }
    {
        Some(Pair {
            first: i16::try_from(n / 1000).ok()?,
            second: i16::try_from(n % 1000).ok()?,
        })
    }
}
