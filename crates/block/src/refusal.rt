// Why the axis refuses a call.
ghost use Rattle.std.specs.Prelude.{◌≡◌};
ghost use Rattle.block.specs.Refusals.{number_of, answer_of};

// Each with the number that is answered.
#[derive(Clone, Copy, PartialEq, Eq, Debug)]
pub enum Refusal {
    // A block has not exactly ten words.
    WordCount = 1,
    // A bit of word 0 that has no meaning is set.
    ReservedBits = 2,
    // More than one command bit rises.
    SeveralCommands = 3,
    // The state does not allow the call.
    State = 4,
    // Two words that the command uses are no pair.
    Pair = 5,
    // A value is out of range.
    Range = 6,
    // Input_Error, the E-stop or a trip is on.
    Inhibited = 7,
    // An absolute move while the position is invalid.
    PositionInvalid = 8,
    // The move goes no step, or leaves the positions.
    Course = 9,
    // The limit in a direction that the move takes is on.
    Limit = 10,
    // There is no event with this code.
    EventCode = 11,
    // The buffer of a reading has less than ten words.
    ShortBuffer = 12,
    // The starting speed of a set-up is out of range.
    StartSpeed = 13,
}

impl From<Refusal> for u8 {
    ghost from_gives = { λ refusal number. number ≡ number_of refusal };

    fn from(refusal: Refusal) -> u8 {
        refusal as u8
    }
}

// The number that answers a call: 0 where it is accepted. Numbers are what goes over the wire.
pub fn answer_number(answer: Result<(), Refusal>) -> u8
    ensures { result ≡ answer_of answer }
{
    answer.err().map_or(0, u8::from)
}
