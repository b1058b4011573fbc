// The drives and the token on examples.
ghost use Rattle.std.specs.Prelude.{◌≡◌};
ghost use Rattle.drive.specs.PhaseDrives.{phase_of, phase_after};
ghost use Rattle.drive.specs.PulseDrives.{line_of, line_after};

use drive::direction::Direction;
use drive::fault::DriveFault;
use drive::phase::PhaseDrive;
use drive::position::{FARTHEST, distance, is_position};
use drive::pulse::PulseDrive;
use drive::token::StepToken;
use drive::traits::Drive;

// What an advance of any stepper promises of its output, said of each kind.
fn advance_pulse(drive: &mut PulseDrive, n: i32) -> Result<(), DriveFault>
    ensures { line_of drive.new ≡ line_after drive.old n }
{
    drive.advance(n)
}

fn advance_phase(drive: &mut PhaseDrive, n: i32) -> Result<(), DriveFault>
    ensures { phase_of drive.new ≡ phase_after drive.old n }
{
    drive.advance(n)
}

#[test]
fn positions_end_at_both_sides(rt: HostRuntime) {
    let farthest = FARTHEST as i32;
    assert!(rt; is_position(0) && is_position(farthest) && is_position(-farthest));
    assert!(rt; !is_position(farthest + 1) && !is_position(-farthest - 1));
    assert!(rt; !is_position(i32::MAX) && !is_position(i32::MIN));
    assert_eq!(rt; distance(i32::MIN, i32::MAX), u32::MAX);
}

#[test]
fn pulse_drive_keeps_its_line(rt: HostRuntime) {
    let mut drive = PulseDrive::new();
    assert_eq!(rt; drive.line(), Direction::Cw);
    assert!(rt; advance_pulse(&mut drive, -200).is_ok());
    assert!(rt; drive.advance(0).is_ok());
    assert_eq!(rt; advance_pulse(&mut drive, 201), Err(DriveFault::TooFar));
    assert!(rt; drive.set(8_388_600).is_ok());
    assert_eq!(rt; drive.advance(8), Err(DriveFault::NoPosition));
    assert_eq!(rt; drive.line(), Direction::Ccw);
    assert!(rt; drive.advance(7).is_ok());
    assert_eq!(rt; drive.line(), Direction::Cw);
    assert_eq!(rt; drive.place(), 8_388_607);
    assert_eq!(rt; drive.set(-8_388_608), Err(DriveFault::NoPosition));
    assert_eq!(rt; drive.place(), 8_388_607);
}

#[test]
fn tripped_drive_only_refuses_to_advance(rt: HostRuntime) {
    let mut drive = PulseDrive::new();
    drive.trip();
    assert!(rt; drive.tripped());
    assert_eq!(rt; drive.advance(0), Err(DriveFault::Tripped));
    assert!(rt; drive.set(-8_388_607).is_ok());
    drive.clear();
    assert_eq!(rt; drive.advance(-1), Err(DriveFault::NoPosition));
    assert!(rt; drive.advance(1).is_ok());
    assert_eq!(rt; drive.place(), -8_388_606);
}

#[test]
fn phase_drive_goes_twenty_steps_at_once(rt: HostRuntime) {
    let mut drive = PhaseDrive::new();
    assert_eq!(rt; drive.coils(), 1);
    assert_eq!(rt; drive.advance(21), Err(DriveFault::TooFar));
    assert_eq!(rt; advance_phase(&mut drive, -21), Err(DriveFault::TooFar));
    assert_eq!(rt; drive.phase(), 0);
    assert!(rt; advance_phase(&mut drive, 20).is_ok());
    assert_eq!(rt; (drive.place(), drive.phase(), drive.coils()), (20, 4, 2));
    assert!(rt; drive.set(-500).is_ok());
    assert_eq!(rt; (drive.place(), drive.phase()), (-500, 4));
    assert!(rt; drive.advance(-5).is_ok());
    assert_eq!(rt; (drive.place(), drive.phase(), drive.coils()), (-505, 7, 9));
}

#[test]
fn coils_go_round_in_both_directions(rt: HostRuntime) {
    let expected = [5, 4, 6, 2, 10, 8, 9, 1];
    let mut drive = PhaseDrive::new();
    for coils in &expected {
        assert!(rt; drive.advance(1).is_ok());
        assert_eq!(rt; drive.coils(), *coils);
    }
    assert!(rt; drive.advance(-1).is_ok());
    assert_eq!(rt; drive.coils(), 9);
}

#[test]
fn token_delivers_the_whole_steps_once(rt: HostRuntime) {
    let mut drive = PhaseDrive::new();
    assert_eq!(rt;
        StepToken::count(3999, 0, Direction::Ccw).deliver(&mut drive),
        Ok(-3)
    );
    assert_eq!(rt;
        StepToken::count(3999, 3, Direction::Ccw).deliver(&mut drive),
        Ok(0)
    );
    assert_eq!(rt;
        StepToken::count(23_000, 3, Direction::Ccw).deliver(&mut drive),
        Ok(-20)
    );
    assert_eq!(rt;
        StepToken::count(44_000, 23, Direction::Ccw).deliver(&mut drive),
        Err(DriveFault::TooFar)
    );
    assert_eq!(rt;
        StepToken::count(u64::MAX, 0, Direction::Cw).deliver(&mut drive),
        Err(DriveFault::TooFar)
    );
    drive.trip();
    assert_eq!(rt;
        StepToken::count(999, 0, Direction::Cw).deliver(&mut drive),
        Ok(0)
    );
    assert_eq!(rt;
        StepToken::count(u64::MAX, 0, Direction::Cw).deliver(&mut drive),
        Err(DriveFault::Tripped)
    );
    assert_eq!(rt; drive.place(), -23);
}
