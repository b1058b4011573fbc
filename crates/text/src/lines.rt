// The lines of a text.
ghost use Rattle.std.specs.Prelude.{◌≡◌, ◌<◌, ◌∷◌, length};
ghost use Rattle.std.specs.Iterator.{YieldsFirstRef, item_count};
ghost use Rattle.text.specs.TextLines.{lines_of, LinesDivide, lines_left};

use crate::text::place_of;

// The first line of a text that is not empty, and what comes after its end.
#[tactic(auto, using(crate::proofs::TextLineLaws::line_some, crate::proofs::TextLineLaws::line_only, std::proofs::lemmas::List::take_rest))]
fn split_line(text: &[u8]) -> (&[u8], &[u8])
    ensures { 0 < length text.now → lines_of text.now ≡ result.0.now ∷ lines_of result.1.now }
{
    match place_of(b'\n', text) {
        Some(end) => (&text[..end], &text[end + 1..]),
        None => (text, &[]),
    }
}

// The lines of a text, one by one from its beginning.
#[derive(Drop)]
pub struct Lines<'a> {
    rest: &'a [u8],
}

impl<'a> Lines<'a> {
    #[tactic(auto, using(crate::proofs::TextLineLaws::lines_divide))]
    pub fn of(text: &'a [u8]) -> Lines<'a>
        ensures left { lines_left result ≡ lines_of text.now }
        ensures divide { LinesDivide }
    {
        Lines { rest: text }
    }
}

impl<'a> Iterator for Lines<'a> {
    type Item = &'a [u8];

    ghost next_gives = { YieldsFirstRef lines_left };

    ghost remaining = { item_count lines_left };

    // Takes the next line off, if there is one.
    fn next(&mut self) -> Option<&'a [u8]> {
        if self.rest.is_empty() {
            return None;
        }
        let (line, rest) = split_line(self.rest);
        self.rest = rest;
        Some(line)
    }
}
