// What a word of a line says.
ghost use Rattle.std.specs.Prelude.{◌≡◌, List, ℕ, drop, Result};
ghost use Rattle.bed.specs.Words.{first_as, integer, natural, short, complete as complete_of, only as only_of};
ghost use Rattle.bed.specs.declared.fault.LineFault.{LineFault as Fault};
ghost use Rattle.text.specs.Texts.{words_left};

use crate::fault::LineFault;
use text::number;
use text::text::Words;

// A value that a word can say.
pub trait FromWord: Sized {
    // What a word says, or why it cannot stand where such a value is to be.
    ghost read: { List ℕ → Result Self Fault };

    fn from_word(word: &[u8]) -> Result<Self, LineFault>
        ensures { result ≡ read word.now };
}

impl FromWord for i32 {
    ghost read = { integer };

    fn from_word(word: &[u8]) -> Result<i32, LineFault> {
        number::number(word).ok_or(LineFault::NotANumber)
    }
}

impl FromWord for u32 {
    ghost read = { natural };

    fn from_word(word: &[u8]) -> Result<u32, LineFault> {
        number::natural(word).ok_or(LineFault::NotANumber)
    }
}

impl FromWord for i16 {
    ghost read = { short };

    fn from_word(word: &[u8]) -> Result<i16, LineFault> {
        number::word(word).ok_or(LineFault::NotANumber)
    }
}

// What the next word says.
pub fn read_next<T: FromWord>(words: &mut Words) -> Result<T, LineFault>
    ensures word { result ≡ first_as T.read (words_left words.old) }
    ensures left { words_left words.new ≡ drop 1 (words_left words.old) }
{
    T::from_word(words.next().ok_or(LineFault::MissingWord)?)
}

// What was read, if no word is left.
pub fn complete<T: Drop>(mut words: Words, value: T) -> Result<T, LineFault>
    ensures { result ≡ complete_of value (words_left words.entry) }
{
    match words.next() {
        Some(_) => Err(LineFault::ExtraWord),
        None => Ok(value),
    }
}

// What the one word says that is left.
pub fn only<T: FromWord + Drop>(mut words: Words) -> Result<T, LineFault>
    ensures { result ≡ only_of T.read (words_left words.entry) }
{
    let value = read_next(&mut words)?;
    complete(words, value)
}
