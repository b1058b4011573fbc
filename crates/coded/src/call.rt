// Calls as bytes: the number of a call, and then what it takes. Numbers of more than one byte stand lowest byte first.
//
//   0 a b c d     a set-up, with its speed in 32 bits
//   1 n a b ..    a block of n words, with two bytes for each
//   2 a b c d     an event, with its code in 32 bits
//   3 a b         so many ticks, in 16 bits
//   4 n           a reading into a buffer of n words, which holds sevens before it
//   5             a look at the drive
//
// They answer words of 32 bits: a set-up, a block and an event the number, ticks the steps of each, a reading the number and then all
// words of its buffer, a look at the drive its place, whether it is tripped (0 or 1), and what it shows of its kind.
ghost use Rattle.std.specs.Prelude.{◌≡◌, ◌<◌, length, drop, slice_index, IfSome, None, is_some};
ghost use Rattle.coded.specs.Calls.{call_size, begins_whole, Says, first_answers, answers_of, call_number};

#[derive(Clone, Copy)]
pub enum Call<'a> {
    SetUp(i32),
    // With the two bytes of each word.
    Block(&'a [u8]),
    Event(i32),
    Ticks(u16),
    Reading(u8),
    Drive,
}

// A call, and the bytes after it.
#[derive(Clone, Copy)]
pub struct Next<'a> {
    pub call: Call<'a>,
    pub rest: &'a [u8],
}

// The first call of some bytes; none where they begin with no whole one.
pub fn next_call(bytes: &[u8]) -> Option<Next<'_>>
    ensures whole { is_some result ≡ begins_whole bytes.now }
    ensures rest { IfSome result (λ next. next.rest.now ≡ drop (call_size bytes.now) bytes.now) }
    ensures shorter { IfSome result (λ next. length next.rest.now < length bytes.now) }
    ensures unknown { 5 < slice_index bytes.now 0 → result ≡ None }
    ensures number { IfSome result (λ next. call_number next.call ≡ slice_index bytes.now 0) }
    ensures says { IfSome result (λ next. Says next.call bytes.now) }
    ensures answers { IfSome result (λ next. answers_of next.call ≡ first_answers bytes.now) }
{
    let (call, rest) = match bytes {
        [0, a, b, c, d, rest @ ..] => (Call::SetUp(i32::from_le_bytes([*a, *b, *c, *d])), rest),
        [1, count, rest @ ..] => {
            let (words, rest) = rest.split_at_checked(2 * *count as usize)?;
            (Call::Block(words), rest)
        }
        [2, a, b, c, d, rest @ ..] => (Call::Event(i32::from_le_bytes([*a, *b, *c, *d])), rest),
        [3, low, high, rest @ ..] => (Call::Ticks(*low as u16 + 256 * *high as u16), rest),
        [4, count, rest @ ..] => (Call::Reading(*count), rest),
        [5, rest @ ..] => (Call::Drive, rest),
        _ => return None,
    };
    Some(Next { call, rest })
}

// How many words a call answers.
pub fn answers(call: &Call) -> usize
    ensures { result ≡ answers_of call.now }
{
    match call {
        Call::SetUp(_) | Call::Block(_) | Call::Event(_) => 1,
        Call::Ticks(count) => *count as usize,
        Call::Reading(size) => 1 + *size as usize,
        Call::Drive => 3,
    }
}
