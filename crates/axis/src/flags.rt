// What the axis tells of itself, the levels of its inputs, and its last two advances.
use table::limits::Limits;

#[derive(Clone, Copy, PartialEq, Eq, Debug, Default)]
pub struct Flags {
    // Configuration_Error
    pub configuration: bool,
    // Command_Error
    pub command: bool,
    // Input_Error
    pub input: bool,
    // Position_Invalid
    pub invalid: bool,
    // Move_Complete
    pub complete: bool,
}

// The limit switches and the E-stop: true while on.
#[derive(Clone, Copy, Default)]
pub struct Levels {
    pub limits: Limits,
    pub estop: bool,
}

// The last advance of the plan in millisteps, and the one before; 0 before the first.
#[derive(Clone, Copy, Default)]
pub struct Pace {
    pub last: u32,
    pub before: u32,
}
