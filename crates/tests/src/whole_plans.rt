// Plans of the creeping profile, run to their end.
use bench::flat::{plan_of, run_flat};
use bench::run::run_plan;
use profile::creep::Creep;
use profile::plan::Plan;
use profile::rates::Rates;
use profile::row::Row;
use std::test::Fail;

const RATES: Rates = Rates {
    accel: 50,
    decel: 50,
};

const TWO_STEPS: Row = Row {
    steps: 2,
    speed: 900,
};

#[test]
fn runs_with_and_without_a_brake(rt: HostRuntime) -> Result<(), Fail> {
    let plan = Plan::new(300, RATES, &[TWO_STEPS])?;
    let whole = run_plan(&mut Creep::new(), plan, None);
    assert_eq!(rt; (whole.ticks, whole.peak, whole.gone), (7, 300, 2000));
    let braked = run_plan(&mut Creep::new(), plan, Some(3));
    assert_eq!(rt;
        braked.to_string(rt.alloc())?.as_str(),
        "3 ticks, peak 300, gone 900, check 297900"
    );
    assert_eq!(rt; run_plan(&mut Creep::new(), plan, Some(8)), whole);
    Ok(())
}

#[test]
fn flat_rows(rt: HostRuntime) {
    assert_eq!(rt; run_flat(&mut Creep::new(), 300, RATES, &[2, 900, 1]), None);
    assert_eq!(rt; run_flat(&mut Creep::new(), 300, RATES, &[2, 200]), None);
    let mut out = [5; 3];
    if let Some(outcome) = run_flat(&mut Creep::new(), 300, RATES, &[2, 900]) {
        outcome.tell(&mut out[2..]);
    }
    assert_eq!(rt; out, [5, 5, 5]);
    if let Some(outcome) = run_flat(&mut Creep::new(), 300, RATES, &[1, 900]) {
        outcome.tell(&mut out);
    }
    assert_eq!(rt; out, [4, 9_235_000, 5]);
    assert!(rt; plan_of(300, RATES, &[2, 900]).is_some());
    assert!(rt; plan_of(300, RATES, &[]).is_none());
}
