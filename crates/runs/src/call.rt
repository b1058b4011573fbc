// The five calls of an axis as values, and what they answer.
use block::refusal::Refusal;

#[derive(Clone, Copy)]
pub enum Call<'a> {
    // With the starting speed, in millisteps a tick.
    SetUp(i32),
    // With the words of a block.
    Block(&'a [i16]),
    // With the code of an event.
    Event(i32),
    Tick,
    // With the words of the buffer before it.
    Reading(&'a [i16]),
}

#[derive(Drop)]
pub enum Answer {
    // Of a set-up, a block or an event.
    Replied(Result<(), Refusal>),
    // Of a tick: the steps.
    Sent(i32),
    // Of a reading: the words of its buffer after it are in it too.
    Read(Result<(), Refusal>, Vec<i16>),
}
