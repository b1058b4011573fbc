// Reads texts from their bytes: lines, words and numbers. Bytes and no `str`, since a script is whatever bytes come in, and each line
// that cannot be read is refused by itself. Lines and words are iterators of their own: those of `split` have a closure in their
// type, which has no name where one is kept or passed.
#![tactic(auto)]

pub mod lines;
pub mod number;
pub mod text;
