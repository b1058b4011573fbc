// Numbers, read from the bytes of a word.
ghost use Rattle.std.specs.Prelude.{◌≡◌, ◌^◌, ◌≤◌};
ghost use Rattle.text.specs.Decimals.{below, digits_of, natural_of, positive_of, negative_of, signed_of, integer_of, bits_of, word_of};

// The number that one or more digits write in a base.
#[tactic(auto, using(crate::proofs::DecimalLaws::digits_large))]
fn in_base(base: u32, digits: &[u8]) -> Option<u32>
    requires least { 2 ≤ base }
    requires most { base ≤ 36 }
    ensures { result ≡ below (2 ^ 32) (digits_of base digits.now) }
{
    if digits.is_empty() {
        return None;
    }
    let mut value: u32 = 0;
    // No `try_fold`: its closure would hold the same two steps that can fail, and be no plainer.
    for b in digits {
        let digit = char::from(*b).to_digit(base)?;
        value = value.checked_mul(base)?.checked_add(digit)?;
    }
    Some(value)
}

// An unsigned number: one or more decimal digits.
pub fn natural(word: &[u8]) -> Option<u32>
    ensures { result ≡ natural_of word.now }
{
    in_base(10, word)
}

// The number that digits write with no sign.
fn positive(digits: &[u8]) -> Option<i32>
    ensures { result ≡ positive_of (2 ^ 31) digits.now }
{
    i32::try_from(natural(digits)?).ok()
}

// The number that digits write after a `-`.
fn negative(digits: &[u8]) -> Option<i32>
    ensures { result ≡ negative_of (2 ^ 31) digits.now }
{
    i32::try_from(-i64::from(natural(digits)?)).ok()
}

// A signed number: an unsigned one, with at most one `-` in front.
pub fn number(word: &[u8]) -> Option<i32>
    ensures { result ≡ integer_of word.now }
{
    match word {
        [b'-', digits @ ..] => negative(digits),
        _ => positive(word),
    }
}

// The 16 bits that hexadecimal digits write, as a signed number.
fn bits(digits: &[u8]) -> Option<i16>
    ensures { result ≡ bits_of digits.now }
{
    let bits = u16::try_from(in_base(16, digits)?).ok()?;
    Some(bits.cast_signed())
}

// A signed number of 16 bits.
fn short(word: &[u8]) -> Option<i16>
    ensures { result ≡ signed_of (2 ^ 15) word.now }
{
    i16::try_from(number(word)?).ok()
}

// A number of 16 bits, written as a signed number or, after `0x`, by the hexadecimal digits of its bits.
pub fn word(text: &[u8]) -> Option<i16>
    ensures { result ≡ word_of text.now }
{
    match text {
        [b'0', b'x', digits @ ..] => bits(digits),
        _ => short(text),
    }
}
