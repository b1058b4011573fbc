// A block is judged first, which changes nothing: what it orders, or why it is refused.
ghost use Rattle.std.specs.Prelude.{◌≡◌, ◌≤◌, ◌&&◌, Ok, ◌+ℤ◌, unsigned_abs};
ghost use Rattle.block.specs.Commands.{commanded as commanded_by};
ghost use Rattle.axis.specs.Axes.{meaning};
ghost use Rattle.axis.specs.Judging.{asked, go_judged, on_course, may_move, valid_asked, absolute_asked, relative_asked, segment_asked, single_asked, resume_judged, blend_judged, dwell_judged, preset_judged, values_judged};
ghost use Rattle.axis.specs.Questions.{allowed, inhibited as inhibited_of, speed_fits, rate_fits, rates_fit, rates_of, single_of, dwell_fits, run_of, pace_fits, distance_fits, segment_fits, segment_of, order_by};

use crate::axis::Axis;
use crate::numbers::{Numbers, number};
use crate::order::{DwellRun, Order, SingleMove};
use crate::state::State;
use block::command::{Command, commanded};
use block::frame::Block;
use block::refusal::Refusal;
use drive::direction::Direction;
use drive::position::is_position;
use drive::traits::Drive;
use profile::rates::Rates;
use profile::traits::Profile;
use table::course::{goes_to, stays_on};
use table::segment::Segment;

// An acceleration or a deceleration, where it is in range.
#[tactic(auto, unfolding(crate::specs::Questions::rate_fits))]
fn rate(number: i16) -> Result<u32, Refusal>
    ensures { result ≡ asked (rate_fits number) Refusal.Range (Ok (unsigned_abs number)) }
{
    if !(1..=5000).contains(&number) {
        return Err(Refusal::Range);
    }
    Ok(u32::from(number.unsigned_abs()))
}

// Both rates of a block. The types are those of other crates, so this is no `TryFrom`; those below are written like it.
#[tactic(auto, unfolding(crate::specs::Questions::rates_fit))]
fn rates_of(block: Block) -> Result<Rates, Refusal>
    ensures { result ≡ asked (rates_fit block) Refusal.Range (Ok (rates_of block)) }
{
    Ok(Rates {
        accel: rate(block.accel)?,
        decel: rate(block.decel)?,
    })
}

// The ticks between the rows of a run, where they are in range.
#[tactic(auto, unfolding(crate::specs::Questions::dwell_fits))]
fn dwell_of(block: Block) -> Result<u32, Refusal>
    ensures { result ≡ asked (dwell_fits block) Refusal.Range (Ok (unsigned_abs block.dwell)) }
{
    if !(0..=30_000).contains(&block.dwell) {
        return Err(Refusal::Range);
    }
    Ok(u32::from(block.dwell.unsigned_abs()))
}

// A run row by row, where its numbers are in range.
fn run_of(block: Block) -> Result<DwellRun, Refusal>
    ensures { result ≡ asked (rates_fit block && dwell_fits block) Refusal.Range (Ok (run_of block)) }
{
    Ok(DwellRun {
        rates: rates_of(block)?,
        dwell: dwell_of(block)?,
    })
}

// The distance of a row: not 0, and within the positions.
#[tactic(auto, unfolding(crate::specs::Questions::distance_fits))]
fn distance(number: i32) -> Result<i32, Refusal>
    ensures { result ≡ asked (distance_fits number) Refusal.Range (Ok number) }
{
    if number == 0 || !is_position(number) {
        return Err(Refusal::Range);
    }
    Ok(number)
}

fn judge_preset(block: Block) -> Result<Order, Refusal>
    ensures { result ≡ preset_judged block }
{
    let place = number(block.place)?;
    if !is_position(place) {
        return Err(Refusal::Range);
    }
    Ok(Order::Preset(place))
}

impl<D: Drive, P: Profile> Axis<D, P> {
    // Does the state allow the command?
    fn allows(&self, command: Command) -> bool
        ensures { result ≡ allowed (meaning D.Drive P.Profile self.now) command }
    {
        match (&self.memory.state, command) {
            (_, Command::Stop) => true,
            (State::Idle | State::Held(_), Command::Reset) => true,
            (State::Running(_) | State::Pausing { .. }, Command::Hold) => true,
            (State::Held(_), Command::Resume) => true,
            (State::Programming, Command::Segment) if self.memory.table.has_room() => true,
            (
                State::Idle | State::Held(_),
                Command::Absolute | Command::Relative | Command::Preset | Command::Program,
            ) if !self.memory.flags.configuration => true,
            (State::Idle | State::Held(_), Command::Run)
                if !self.memory.flags.configuration && self.memory.table.is_ready() => true,
            _ => false,
        }
    }

    // Are Input_Error, the E-stop or a trip on?
    #[tactic(auto, unfolding(crate::specs::Questions::inhibited))]
    fn is_inhibited(&self) -> bool
        ensures { result ≡ inhibited_of (meaning D.Drive P.Profile self.now) }
    {
        self.memory.flags.input || self.memory.levels.estop || self.drive.tripped()
    }

    // A speed from the starting speed to what the drive goes in a tick.
    #[tactic(auto, unfolding(crate::specs::Questions::speed_fits))]
    fn speed(&self, number: i32) -> Result<u32, Refusal>
        ensures { result ≡ asked (speed_fits D.Drive.G (meaning D.Drive P.Profile self.now) number) Refusal.Range (Ok (unsigned_abs number)) }
    {
        if !(self.memory.table.start() as i32..=(1000 * D::G) as i32).contains(&number) {
            return Err(Refusal::Range);
        }
        Ok(number.unsigned_abs())
    }

    // A single move to the place of the numbers, where its speed and its rates are in range.
    #[tactic(auto, unfolding(crate::specs::Questions::pace_fits))]
    fn single_of(&self, numbers: Numbers) -> Result<SingleMove, Refusal>
        ensures { result ≡ asked (pace_fits D.Drive.G (meaning D.Drive P.Profile self.now) numbers) Refusal.Range (Ok (single_of numbers)) }
    {
        Ok(SingleMove {
            target: numbers.place,
            speed: self.speed(numbers.speed)?,
            rates: rates_of(numbers.block)?,
        })
    }

    // Is nothing on that inhibits a move?
    #[tactic(auto, unfolding(crate::specs::Judging::may_move))]
    fn ask_move(&self) -> Result<(), Refusal>
        ensures { result ≡ may_move (meaning D.Drive P.Profile self.now) }
    {
        if self.is_inhibited() {
            return Err(Refusal::Inhibited);
        }
        Ok(())
    }

    // Does a move to a target go at least one step to a position, and is the limit in its direction off?
    fn ask_course(&self, target: i32, direction: Direction) -> Result<(), Refusal>
        ensures { result ≡ on_course (meaning D.Drive P.Profile self.now) target direction }
    {
        if !goes_to(self.drive.place(), target) {
            return Err(Refusal::Course);
        }
        if !self.memory.levels.limits.is_clear(direction) {
            return Err(Refusal::Limit);
        }
        Ok(())
    }

    #[tactic(auto, unfolding(crate::specs::Judging::go_judged))]
    fn judge_go(&self, single: SingleMove) -> Result<Order, Refusal>
        ensures { result ≡ go_judged (meaning D.Drive P.Profile self.now) single }
    {
        let direction = Direction::toward(self.drive.place(), single.target);
        self.ask_course(single.target, direction)?;
        Ok(Order::Go(single))
    }

    fn judge_absolute(&self, numbers: Numbers) -> Result<Order, Refusal>
        ensures { result ≡ absolute_asked D.Drive.G (meaning D.Drive P.Profile self.now) numbers }
    {
        if !is_position(numbers.place) {
            return Err(Refusal::Range);
        }
        self.judge_valid(numbers)
    }

    // A move to a target that is a position, for which the position of the axis has to be valid.
    fn judge_valid(&self, numbers: Numbers) -> Result<Order, Refusal>
        ensures { result ≡ valid_asked D.Drive.G (meaning D.Drive P.Profile self.now) numbers }
    {
        let single = self.single_of(numbers)?;
        self.ask_move()?;
        if self.memory.flags.invalid {
            return Err(Refusal::PositionInvalid);
        }
        self.judge_go(single)
    }

    // Where an offset leads: that of a move, or all the steps of a table.
    fn offset_end(&self, offset: i32) -> i32
        requires { unsigned_abs offset ≤ 134217712 }
        ensures { result ≡ (D.Drive.means self.now.drive).place +ℤ offset }
    {
        self.drive.place() + offset
    }

    fn judge_relative(&self, numbers: Numbers) -> Result<Order, Refusal>
        ensures { result ≡ relative_asked D.Drive.G (meaning D.Drive P.Profile self.now) numbers }
    {
        if !is_position(numbers.place) {
            return Err(Refusal::Range);
        }
        self.judge_single(Numbers {
            place: self.offset_end(numbers.place),
            ..numbers
        })
    }

    // A move to the target that is held: the words of a place are not looked at.
    fn judge_resume(&self, block: Block, target: i32) -> Result<Order, Refusal>
        ensures { result ≡ resume_judged D.Drive.G (meaning D.Drive P.Profile self.now) block target }
    {
        self.judge_single(Numbers {
            block,
            place: target,
            speed: number(block.speed)?,
        })
    }

    // A move to a target that an offset leads to, or that is held.
    fn judge_single(&self, numbers: Numbers) -> Result<Order, Refusal>
        ensures { result ≡ single_asked D.Drive.G (meaning D.Drive P.Profile self.now) numbers }
    {
        let single = self.single_of(numbers)?;
        self.ask_move()?;
        self.judge_go(single)
    }

    fn judge_blend(&self, block: Block) -> Result<Order, Refusal>
        ensures { result ≡ blend_judged (meaning D.Drive P.Profile self.now) block }
    {
        let rates = rates_of(block)?;
        self.ask_move()?;
        let direction = block.direction();
        let offset = direction.signed(self.memory.table.blend_steps() as u64);
        self.ask_course(self.offset_end(offset), direction)?;
        Ok(Order::Blend(direction, rates))
    }

    fn judge_dwell(&self, block: Block) -> Result<Order, Refusal>
        ensures { result ≡ dwell_judged (meaning D.Drive P.Profile self.now) block }
    {
        let run = run_of(block)?;
        self.ask_move()?;
        if !stays_on(self.drive.place(), self.memory.table.rows()) {
            return Err(Refusal::Course);
        }
        if !self
            .memory
            .levels
            .limits
            .are_clear(self.memory.table.rows())
        {
            return Err(Refusal::Limit);
        }
        Ok(Order::Dwell(run))
    }

    // A row of the table, where its distance and its speed are in range.
    fn segment_of(&self, numbers: Numbers) -> Result<Segment, Refusal>
        ensures { result ≡ asked (segment_fits D.Drive.G (meaning D.Drive P.Profile self.now) numbers) Refusal.Range (Ok (segment_of numbers)) }
    {
        Ok(Segment {
            speed: self.speed(numbers.speed)?,
            distance: distance(numbers.place)?,
        })
    }

    fn judge_segment(&self, numbers: Numbers) -> Result<Order, Refusal>
        ensures { result ≡ segment_asked D.Drive.G (meaning D.Drive P.Profile self.now) numbers }
    {
        Ok(Order::Segment(self.segment_of(numbers)?))
    }

    // Judges the values of a command that the state allows.
    fn judge_values(&self, block: Block, command: Command) -> Result<Order, Refusal>
        ensures { result ≡ values_judged D.Drive.G (meaning D.Drive P.Profile self.now) block command }
    {
        match command {
            Command::Absolute => self.judge_absolute(Numbers::read(block)?),
            Command::Relative => self.judge_relative(Numbers::read(block)?),
            Command::Hold => Ok(Order::Hold),
            Command::Resume => {
                let State::Held(target) = self.memory.state else {
                    return Err(Refusal::State);
                };
                self.judge_resume(block, target)
            }
            Command::Stop => Ok(Order::Stop),
            Command::Preset => judge_preset(block),
            Command::Reset => Ok(Order::Reset(block.clears_trip())),
            Command::Program => Ok(Order::Program),
            Command::Segment => self.judge_segment(Numbers::read(block)?),
            Command::Run => {
                if block.is_dwell() {
                    self.judge_dwell(block)
                } else {
                    self.judge_blend(block)
                }
            }
        }
    }

    // What a block orders by the bits that rise.
    #[tactic(auto, using(crate::proofs::Questions::values_are))]
    pub(crate) fn judge(&self, rising: u16, block: Block) -> Result<Order, Refusal>
        ensures { result ≡ order_by D.Drive.G (meaning D.Drive P.Profile self.now) block (commanded_by rising) }
    {
        let Some(command) = commanded(rising)? else {
            return Ok(Order::Nothing);
        };
        if !self.allows(command) {
            return Err(Refusal::State);
        }
        self.judge_values(block, command)
    }
}
