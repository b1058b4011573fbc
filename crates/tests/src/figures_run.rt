// The figures, run on the code.
use axis::axis::Axis;
use block::pair::Pair;
use block::refusal::answer_number;
use drive::phase::PhaseDrive;
use drive::pulse::PulseDrive;
use drive::traits::Drive;
use figures::worked::figure_count;
use profile::plan::Plan;
use profile::rates::Rates;
use profile::row::Row;
use profile::traits::Profile;
use ramp::braking::braking_distance;
use ramp::ramp::Ramp;
use smoothing::smoothed::Smoothed;
use std::test::Fail;

fn pair(first: i16, second: i16) -> Pair {
    Pair { first, second }
}

#[test]
fn pairs_and_their_numbers(rt: HostRuntime) {
    assert_eq!(rt; figure_count(), 10);
    for (n, words) in [
        (12_345, pair(12, 345)),
        (-7, pair(0, -7)),
        (999, pair(0, 999)),
        (-32_768_999, pair(-32_768, -999)),
    ] {
        assert_eq!(rt; words.decode(), Some(n));
        assert_eq!(rt; Pair::encode(n), Some(words));
    }
    assert_eq!(rt; (pair(1, -5).decode(), pair(-1, 5).decode()), (None, None));
    assert_eq!(rt;
        (pair(0, 1000).decode(), pair(0, -1000).decode()),
        (None, None)
    );
    assert_eq!(rt; Pair::encode(32_768_000), None);
}

// A block with these command bits, options, place and speed; the rates are 100.
fn give<D: Drive, P: Profile>(
    axis: &mut Axis<D, P>,
    bits: i16,
    options: i16,
    place: i16,
    speed: i16,
) -> u8 {
    answer_number(axis.block(&[
        bits,
        options,
        0,
        place,
        speed / 1000,
        speed % 1000,
        100,
        100,
        0,
        0,
    ]))
}

// An axis that is set up for a starting speed of 100 and preset to 0.
fn preset_axis<D: Drive, P: Profile>(drive: D, profile: P) -> (Axis<D, P>, (u8, u8)) {
    let mut axis = Axis::power_up(drive, profile);
    let setup = answer_number(axis.set_up(100));
    let preset = give(&mut axis, 0x0200, 0, 0, 0);
    (axis, (setup, preset))
}

fn steps_of<D: Drive, P: Profile>(axis: &mut Axis<D, P>, ticks: u32) -> i32 {
    let mut steps: i32 = 0;
    for _ in 0..ticks {
        steps = steps.saturating_add(axis.tick());
    }
    steps
}

#[test]
fn resume_has_two_steps(rt: HostRuntime) {
    let (mut axis, answers) = preset_axis(PulseDrive::new(), Ramp::new());
    assert_eq!(rt; answers, (0, 0));
    assert_eq!(rt; give(&mut axis, 0x0002, 0, 2, 300), 0);
    assert_eq!(rt; steps_of(&mut axis, 3), 0);
    assert_eq!(rt; give(&mut axis, 0x0004, 0, 0, 0), 0);
    assert_eq!(rt; steps_of(&mut axis, 3), 0);
    assert!(rt; !axis.flags().complete);
    assert_eq!(rt; give(&mut axis, 0x0008, 0, 0, 300), 0);
    assert_eq!(rt; steps_of(&mut axis, 9), 2);
    assert_eq!(rt; (axis.position(), axis.flags().complete), (2, true));
}

#[test]
fn phase_drive_takes_twenty_thousand(rt: HostRuntime) {
    let (mut axis, answers) = preset_axis(PhaseDrive::new(), Ramp::new());
    assert_eq!(rt; answers, (0, 0));
    assert_eq!(rt; give(&mut axis, 0x0001, 0, 5, 20_001), 6);
    assert_eq!(rt; give(&mut axis, 0x0000, 0, 0, 0), 0);
    assert_eq!(rt; give(&mut axis, 0x0001, 0, 5, 20_000), 0);
    assert!(rt; size_of::<Axis<PulseDrive, Smoothed<Ramp>>>() < 2048);
}

// Programs rows of these distances, and closes the table.
fn program<D: Drive, P: Profile>(axis: &mut Axis<D, P>, distances: &[i16]) -> u8 {
    let mut worst = give(axis, 0x0800, 0, 0, 0);
    for distance in distances {
        worst = worst.max(give(axis, 0x1800, 0, *distance, 500));
        worst = worst.max(give(axis, 0x0800, 0, 0, 0));
    }
    worst.max(give(axis, 0x0000, 0, 0, 0))
}

#[test]
fn new_rows_replace_the_old(rt: HostRuntime) {
    let (mut axis, answers) = preset_axis(PulseDrive::new(), Ramp::new());
    assert_eq!(rt; answers, (0, 0));
    assert_eq!(rt; program(&mut axis, &[3, 4, 5]), 0);
    assert_eq!(rt; program(&mut axis, &[1, 2]), 0);
    assert_eq!(rt; give(&mut axis, 0x2000, 0, 0, 0), 0);
    assert_eq!(rt; steps_of(&mut axis, 100), 3);
    assert!(rt; axis.flags().complete);
    assert_eq!(rt; program(&mut axis, &[7]), 0);
    assert_eq!(rt; give(&mut axis, 0x2000, 0, 0, 0), 4);
}

fn two_steps() -> Result<Plan, Fail> {
    Ok(Plan::new(
        100,
        Rates {
            accel: 100,
            decel: 100,
        },
        &[Row {
            steps: 2,
            speed: 300,
        }],
    )?)
}

#[test]
fn braking_and_advances(rt: HostRuntime) -> Result<(), Fail> {
    assert_eq!(rt; braking_distance(&two_steps()?, 250), 200);
    let mut ramp = Ramp::new();
    ramp.begin(two_steps()?);
    for advance in &[100, 200, 300, 300, 300, 300, 266, 167, 67] {
        assert!(rt; !ramp.done());
        assert_eq!(rt; ramp.tick(), *advance);
    }
    assert!(rt; ramp.done());
    Ok(())
}

#[test]
fn smoothed_over_four_ticks(rt: HostRuntime) -> Result<(), Fail> {
    let mut smoothed = Smoothed::new(Ramp::new(), 4);
    assert!(rt; size_of::<Smoothed<Ramp>>() < 1024);
    smoothed.begin(two_steps()?);
    for gone in &[
        25, 100, 250, 475, 750, 1050, 1341, 1599, 1799, 1924, 1983, 2000,
    ] {
        assert!(rt; !smoothed.done());
        let _ = smoothed.tick();
        assert_eq!(rt; smoothed.gone(), *gone);
    }
    assert!(rt; smoothed.done());
    Ok(())
}

#[test]
fn braked_after_three_ticks(rt: HostRuntime) -> Result<(), Fail> {
    let mut ramp = Ramp::new();
    ramp.begin(two_steps()?);
    assert_eq!(rt; (ramp.tick(), ramp.tick(), ramp.tick()), (100, 200, 300));
    ramp.brake();
    assert_eq!(rt; (ramp.tick(), ramp.tick()), (200, 100));
    assert!(rt; ramp.done());
    assert_eq!(rt; ramp.gone(), 900);
    Ok(())
}
