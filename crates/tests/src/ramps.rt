// Constant acceleration on examples.
use profile::fault::PlanFault;
use profile::plan::Plan;
use profile::rates::Rates;
use profile::row::Row;
use profile::traits::Profile;
use ramp::braking::braking_distance;
use ramp::ramp::Ramp;
use std::process::Abort;
use std::test::Fail;

fn row(steps: u32, speed: u32) -> Row {
    Row { steps, speed }
}

fn rates(accel: u32, decel: u32) -> Rates {
    Rates { accel, decel }
}

fn begun(start: u32, rates: Rates, rows: &[Row]) -> Result<Ramp, PlanFault> {
    let mut ramp = Ramp::new();
    ramp.begin(Plan::new(start, rates, rows)?);
    Ok(ramp)
}

fn goes_by(rt: &impl Abort, ramp: &mut Ramp, advances: &[u32]) {
    for advance in advances {
        assert_eq!(rt; ramp.tick(), *advance);
        assert_eq!(rt; ramp.last(), *advance);
    }
}

fn ends_at(rt: &impl Abort, ramp: &mut Ramp, gone: u64) {
    let last = ramp.last();
    assert_eq!(rt; (ramp.tick(), ramp.gone(), ramp.asked()), (0, gone, gone));
    assert_eq!(rt; ramp.last(), last);
    assert!(rt; ramp.done());
}

#[test]
fn two_steps(rt: HostRuntime) -> Result<(), Fail> {
    let mut ramp = begun(100, rates(100, 100), &[row(2, 300)])?;
    assert_eq!(rt;
        (ramp.gone(), ramp.asked(), ramp.top(), ramp.last()),
        (0, 2000, 300, 0)
    );
    goes_by(
        &rt,
        &mut ramp,
        &[100, 200, 300, 300, 300, 300, 266, 167, 67],
    );
    ends_at(&rt, &mut ramp, 2000);
    Ok(())
}

#[test]
fn two_steps_braked(rt: HostRuntime) -> Result<(), Fail> {
    let mut ramp = Ramp::new();
    ramp.brake();
    ends_at(&rt, &mut ramp, 0);
    ramp = begun(100, rates(100, 100), &[row(2, 300)])?;
    goes_by(&rt, &mut ramp, &[100, 200, 300]);
    ramp.brake();
    assert_eq!(rt; (ramp.gone(), ramp.asked(), ramp.last()), (600, 900, 300));
    goes_by(&rt, &mut ramp, &[200, 100]);
    ends_at(&rt, &mut ramp, 900);
    Ok(())
}

#[test]
fn deceleration_above_start_or_speed(rt: HostRuntime) -> Result<(), Fail> {
    let mut ramp = begun(100, rates(200, 150), &[row(2, 500)])?;
    goes_by(&rt, &mut ramp, &[200, 400, 500, 450, 300, 150]);
    ends_at(&rt, &mut ramp, 2000);
    ramp = begun(100, rates(200, 600), &[row(2, 500)])?;
    goes_by(&rt, &mut ramp, &[200, 400, 500, 500, 400]);
    ends_at(&rt, &mut ramp, 2000);
    Ok(())
}

#[test]
fn rows_rise_and_fall(rt: HostRuntime) -> Result<(), Fail> {
    let mut ramp = begun(
        100,
        rates(300, 200),
        &[row(2, 400), row(2, 1000), row(1, 200)],
    )?;
    goes_by(
        &rt,
        &mut ramp,
        &[300, 400, 400, 400, 400, 400, 700, 800, 600, 400, 200],
    );
    ends_at(&rt, &mut ramp, 5000);
    Ok(())
}

#[test]
fn way_shorter_than_start(rt: HostRuntime) -> Result<(), Fail> {
    let mut ramp = begun(5000, rates(1, 1), &[row(1, 5000)])?;
    goes_by(&rt, &mut ramp, &[1000]);
    ends_at(&rt, &mut ramp, 1000);
    Ok(())
}

#[test]
fn braking_distances(rt: HostRuntime) -> Result<(), Fail> {
    let rows = [row(1, 200_000)];
    assert_eq!(rt;
        braking_distance(&Plan::new(1, rates(1, 1), &rows)?, 200_000),
        19_999_900_000
    );
    assert_eq!(rt;
        braking_distance(&Plan::new(7, rates(1, 3), &rows)?, 100),
        1612
    );
    assert_eq!(rt;
        braking_distance(&Plan::new(100, rates(1, 600), &rows)?, 500),
        0
    );
    Ok(())
}
