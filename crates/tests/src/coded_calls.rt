use coded::numbers::bed_of;
use coded::run::{Unmade, run_calls};
use std::test::Fail;

// A set-up of 100, a Preset to 12,345, five steps clockwise at 300, 19 ticks, a reading, and a look at the drive.
const FIVE_STEPS: [u8; 55] = [
    0, 100, 0, 0, 0, // set-up
    1, 10, 0, 2, 0, 0, 12, 0, 89, 1, 0, 0, 0, 0, 0, 0, 0, 0, 0, 0, 0, 0, // Preset
    1, 10, 2, 0, 0, 0, 0, 0, 5, 0, 0, 0, 44, 1, 100, 0, 100, 0, 0, 0, 0, 0, // Relative
    3, 19, 0, // ticks
    4, 10, // reading
    5,
];

#[test]
fn five_steps(rt: HostRuntime) -> Result<(), Fail> {
    let bed = bed_of(0, 1, 0, 0).ok_or("no bed")?;
    let mut out = [9; 37];
    let answer = run_calls(bed, &FIVE_STEPS, &mut out);
    assert_eq!(rt; answer, Ok(()));
    let expected = [
        0, 0, 0, // set-up and blocks
        0, 0, 0, 0, 1, 0, 0, 1, 0, 0, 1, 0, 0, 0, 1, 0, 0, 0, 1, // steps
        0, 16520, 0, 12, 350, 0, 0, 0, 0, 0, 0, // reading
        12350, 0, 1, // drive
        9, // not written
    ];
    assert_eq!(rt; out, expected);
    Ok(())
}

#[test]
fn ends_early(rt: HostRuntime) -> Result<(), Fail> {
    let bed = bed_of(1, 5, 4, 64).ok_or("no bed")?;
    let mut out = [9; 3];
    let answer = run_calls(bed, &[5, 4, 10], &mut out);
    assert_eq!(rt; answer, Err(Unmade::NoRoom));
    assert_eq!(rt; out, [0, 0, 1]);
    let answer = run_calls(bed, &[2, 1], &mut out);
    assert_eq!(rt; answer, Err(Unmade::Unreadable));
    Ok(())
}
