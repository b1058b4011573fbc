// A line's text: what its comment leaves, and the words in it.
ghost use Rattle.std.specs.Prelude.{◌≡◌, ◌≤◌, ◌==◌, length, position};
ghost use Rattle.std.specs.Iterator.{YieldsFirstRef, item_count};
ghost use Rattle.std.specs.List.{position_or_len};
ghost use Rattle.text.specs.Texts.{uncommented as uncommented_of, is_blank, is_word_byte, words_of, WordsDivide, words_left};

const COMMENT: u8 = b'#';

// Where a byte stands first in a text.
pub(crate) fn place_of(byte: u8, text: &[u8]) -> Option<usize>
    ensures { result ≡ position (λ b. b == byte) text.now }
{
    text.iter().position(|b| *b == byte)
}

// What stands before the first `#`.
#[tactic(auto, using(crate::proofs::TextLaws::comment_some, crate::proofs::TextLaws::comment_none))]
pub fn uncommented(text: &[u8]) -> &[u8]
    ensures { result.now ≡ uncommented_of text.now }
{
    match place_of(COMMENT, text) {
        Some(start) => &text[..start],
        None => text,
    }
}

// Whether a byte only separates words.
fn is_blank(b: u8) -> bool
    ensures { result ≡ is_blank b }
{
    matches!(b, b' ' | b'\t' | b'\r')
}

// Where the first word of a text begins.
fn word_start(text: &[u8]) -> Option<usize>
    ensures { result ≡ position is_word_byte text.now }
{
    text.iter().position(|b| !is_blank(*b))
}

// How many bytes stand before the first blank.
fn run_len(text: &[u8]) -> usize
    ensures within { result ≤ length text.now }
    ensures stops { result ≡ position_or_len is_blank text.now }
{
    text.iter().take_while(|b| !is_blank(**b)).count()
}

// The words of a text, one by one from the left.
#[derive(Drop)]
pub struct Words<'a> {
    rest: &'a [u8],
}

impl<'a> Words<'a> {
    #[tactic(auto, using(crate::proofs::TextLaws::words_divide))]
    pub fn of(text: &'a [u8]) -> Words<'a>
        ensures left { words_left result ≡ words_of text.now }
        ensures divide { WordsDivide }
    {
        Words { rest: text }
    }
}

impl<'a> Iterator for Words<'a> {
    type Item = &'a [u8];

    ghost next_gives = { YieldsFirstRef words_left };

    ghost remaining = { item_count words_left };

    // Takes the next word off, if there is one. At the end the blanks that are left go too: a further call does not scan them again.
    #[tactic(auto, using(crate::proofs::TextLaws::words_none, crate::proofs::TextLaws::word_taken, std::proofs::lemmas::List::take_rest))]
    fn next(&mut self) -> Option<&'a [u8]> {
        let Some(start) = word_start(self.rest) else {
            self.rest = &[];
            return None;
        };
        let text = &self.rest[start..];
        let (word, rest) = text.split_at(run_len(text));
        self.rest = rest;
        Some(word)
    }
}
