// Smoothing over creep, on examples.
use profile::creep::Creep;
use profile::plan::Plan;
use profile::rates::Rates;
use profile::row::Row;
use profile::traits::Profile;
use smoothing::smoothed::Smoothed;
use std::process::Abort;
use std::test::Fail;

fn plan(start: u32, steps: u32) -> Result<Plan, Fail> {
    let rates = Rates {
        accel: 50,
        decel: 50,
    };
    Ok(Plan::new(start, rates, &[Row { steps, speed: 900 }])?)
}

fn advances<P: Profile>(rt: &impl Abort, profile: &mut P, expected: &[u32]) {
    for advance in expected {
        assert_eq!(rt; profile.tick(), *advance);
    }
}

// The last of these advances, with nothing left and all that was asked for gone, and then none.
fn ends<P: Profile>(rt: &impl Abort, profile: &mut P, expected: &[u32]) {
    assert!(rt; !profile.done());
    advances(rt, profile, expected);
    assert!(rt; profile.done());
    assert_eq!(rt; profile.gone(), profile.asked());
    assert_eq!(rt; profile.tick(), 0);
}

#[test]
fn smooths_over_four_ticks(rt: HostRuntime) -> Result<(), Fail> {
    let mut p = Smoothed::new(Creep::new(), 4);
    assert!(rt; p.done());
    p.begin(plan(100, 1)?);
    assert_eq!(rt; (p.length(), p.top(), p.asked()), (4, 900, 1000));
    assert!(rt; size_of::<Smoothed<Creep>>() < 1024);
    ends(
        &rt,
        &mut p,
        &[25, 50, 75, 100, 100, 100, 100, 100, 100, 100, 75, 50, 25],
    );
    Ok(())
}

#[test]
fn rounds_down_over_three_ticks(rt: HostRuntime) -> Result<(), Fail> {
    let mut p = Smoothed::new(Creep::new(), 3);
    p.begin(plan(100, 1)?);
    ends(
        &rt,
        &mut p,
        &[33, 67, 100, 100, 100, 100, 100, 100, 100, 100, 66, 34],
    );
    Ok(())
}

#[test]
fn brakes_under_way(rt: HostRuntime) -> Result<(), Fail> {
    let mut p = Smoothed::new(Creep::new(), 4);
    p.begin(plan(100, 1)?);
    advances(&rt, &mut p, &[25, 50, 75]);
    p.brake();
    assert_eq!(rt; (p.gone(), p.asked(), p.below().gone()), (150, 300, 300));
    assert!(rt; p.below().done());
    ends(&rt, &mut p, &[75, 50, 25]);
    Ok(())
}

#[test]
fn smooths_over_a_smoothing(rt: HostRuntime) -> Result<(), Fail> {
    let mut p = Smoothed::new(Smoothed::new(Creep::new(), 2), 3);
    p.begin(plan(100, 1)?);
    ends(
        &rt,
        &mut p,
        &[16, 50, 84, 100, 100, 100, 100, 100, 100, 100, 83, 50, 17],
    );
    Ok(())
}

#[test]
fn length_is_1_to_64(rt: HostRuntime) -> Result<(), Fail> {
    let mut p = Smoothed::new(Creep::new(), 0);
    p.begin(plan(100, 1)?);
    assert_eq!(rt; p.length(), 1);
    ends(&rt, &mut p, &[100; 10]);
    let mut p = Smoothed::new(Creep::new(), 100);
    p.begin(plan(100, 1)?);
    assert_eq!(rt; p.length(), 64);
    advances(&rt, &mut p, &[1, 3, 5, 6, 8, 9, 11, 13, 14, 15, 16]);
    for _ in 0..52 {
        assert!(rt; p.tick() >= 15);
    }
    ends(&rt, &mut p, &[15, 14, 13, 11, 9, 8, 6, 5, 3, 2]);
    Ok(())
}

#[test]
fn made_over_a_profile_under_way(rt: HostRuntime) -> Result<(), Fail> {
    let mut below = Creep::new();
    below.begin(plan(300, 2)?);
    advances(&rt, &mut below, &[300, 300]);
    let mut p = Smoothed::new(below, 4);
    assert_eq!(rt; (p.gone(), p.asked()), (600, 2000));
    ends(&rt, &mut p, &[75, 150, 225, 300, 275, 200, 125, 50]);
    Ok(())
}

#[test]
fn begins_again(rt: HostRuntime) -> Result<(), Fail> {
    let mut p = Smoothed::new(Creep::new(), 4);
    p.begin(plan(100, 1)?);
    advances(&rt, &mut p, &[25, 50]);
    p.begin(plan(300, 1)?);
    assert_eq!(rt; (p.gone(), p.asked()), (0, 1000));
    ends(&rt, &mut p, &[75, 150, 225, 250, 175, 100, 25]);
    Ok(())
}
