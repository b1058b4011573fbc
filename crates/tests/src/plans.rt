// Plans at each bound, and creep on examples.
use profile::creep::Creep;
use profile::extent::{Extent, measure};
use profile::fault::PlanFault;
use profile::list::RowList;
use profile::plan::Plan;
use profile::progress::Progress;
use profile::rates::Rates;
use profile::row::Row;
use profile::traits::Profile;
use std::test::Fail;

const ONE: Row = Row {
    steps: 1,
    speed: 100,
};

const RATES: Rates = Rates {
    accel: 20,
    decel: 30,
};

fn two_steps() -> Result<Plan, PlanFault> {
    Plan::new(
        300,
        Rates {
            accel: 50,
            decel: 50,
        },
        &[Row {
            steps: 2,
            speed: 900,
        }],
    )
}

fn refusal(start: u32, accel: u32, decel: u32, rows: &[Row]) -> Option<PlanFault> {
    Plan::new(start, Rates { accel, decel }, rows).err()
}

fn row_refusal(start: u32, steps: u32, speed: u32) -> Option<PlanFault> {
    refusal(start, 1, 1, &[ONE, Row { steps, speed }])
}

#[test]
fn plan_bounds_of_its_numbers(rt: HostRuntime) {
    assert_eq!(rt; refusal(1, 1, 1, &[ONE]), None);
    assert_eq!(rt; refusal(100, 5000, 5000, &[ONE; 16]), None);
    assert_eq!(rt; refusal(0, 1, 1, &[ONE]), Some(PlanFault::Start));
    assert_eq!(rt; refusal(1, 0, 1, &[ONE]), Some(PlanFault::Acceleration));
    assert_eq!(rt; refusal(1, 5001, 1, &[ONE]), Some(PlanFault::Acceleration));
    assert_eq!(rt; refusal(1, 1, 0, &[ONE]), Some(PlanFault::Deceleration));
    assert_eq!(rt; refusal(1, 1, 5001, &[ONE]), Some(PlanFault::Deceleration));
    assert_eq!(rt; refusal(1, 1, 1, &[]), Some(PlanFault::RowCount));
    assert_eq!(rt; refusal(1, 1, 1, &[ONE; 17]), Some(PlanFault::RowCount));
}

#[test]
fn plan_bounds_of_its_rows(rt: HostRuntime) {
    assert_eq!(rt; row_refusal(100, 1, 200_000), None);
    assert_eq!(rt; row_refusal(100, 1, 200_001), Some(PlanFault::Row));
    assert_eq!(rt; row_refusal(100, 1, 100), None);
    assert_eq!(rt; row_refusal(100, 1, 99), Some(PlanFault::Row));
    assert_eq!(rt; row_refusal(100, 0, 100), Some(PlanFault::Row));
    assert_eq!(rt; row_refusal(101, 1, 101), Some(PlanFault::Row));
    assert_eq!(rt; row_refusal(1, 16_777_213, 1), None);
    assert_eq!(rt; row_refusal(1, 16_777_214, 1), Some(PlanFault::Length));
    assert_eq!(rt; row_refusal(1, u32::MAX, 1), Some(PlanFault::Length));
}

#[test]
fn plan_tells_its_numbers(rt: HostRuntime) -> Result<(), Fail> {
    let rows = [
        Row {
            steps: 7,
            speed: 300,
        },
        Row {
            steps: 5,
            speed: 900,
        },
        Row {
            steps: 3,
            speed: 200,
        },
    ];
    let plan = Plan::new(100, RATES, &rows)?;
    assert_eq!(rt; (plan.start(), plan.accel(), plan.decel()), (100, 20, 30));
    assert_eq!(rt; plan.rates(), RATES);
    assert_eq!(rt; (plan.steps(), plan.top()), (15, 900));
    assert!(rt; plan.rows().len() == 3);
    assert_eq!(rt; plan.rows()[1], rows[1]);
    Ok(())
}

#[test]
fn creep_goes_at_the_starting_speed(rt: HostRuntime) -> Result<(), Fail> {
    let mut creep = Creep::new();
    creep.begin(two_steps()?);
    let expected = [300, 300, 300, 300, 300, 300, 200, 0];
    for advance in &expected {
        assert_eq!(rt; creep.tick(), *advance);
    }
    assert_eq!(rt;
        (creep.gone(), creep.asked(), creep.top()),
        (2000, 2000, 900)
    );
    assert!(rt; creep.done());
    Ok(())
}

#[test]
fn creep_brakes_at_once(rt: HostRuntime) -> Result<(), Fail> {
    let mut creep = Creep::new();
    creep.brake();
    assert!(rt; creep.done());
    assert_eq!(rt; (creep.tick(), creep.top()), (0, 0));
    creep.begin(two_steps()?);
    assert!(rt; !creep.done());
    assert_eq!(rt; (creep.tick(), creep.tick()), (300, 300));
    creep.brake();
    assert_eq!(rt; (creep.tick(), creep.gone(), creep.asked()), (0, 600, 600));
    assert!(rt; creep.done());
    Ok(())
}

#[test]
fn list_takes_sixteen_rows(rt: HostRuntime) {
    let mut list = RowList::new();
    assert!(rt; list.is_empty());
    for _ in 0..16u32 {
        assert!(rt; !list.is_full());
        assert_eq!(rt; list.push(ONE), Ok(()));
    }
    assert!(rt; list.is_full());
    assert_eq!(rt; list.push(Row::default()), Err(Row { steps: 0, speed: 0 }));
    assert_eq!(rt; list.len(), 16);
    assert_eq!(rt; list.as_slice()[15], ONE);
    assert_eq!(rt; RowList::of(&[ONE; 16]), Some(list));
    assert_eq!(rt; RowList::of(&[ONE; 17]), None);
    assert_eq!(rt; RowList::of(&[]), Some(RowList::new()));
}

#[test]
fn extent_of_rows(rt: HostRuntime) {
    let longest = Row {
        steps: u32::MAX,
        speed: 7,
    };
    assert_eq!(rt; measure(&[]), Extent { steps: 0, top: 0 });
    assert_eq!(rt;
        measure(&[longest, ONE, longest]),
        Extent {
            steps: 8_589_934_591,
            top: 100,
        }
    );
}

#[test]
fn progress_goes_no_farther(rt: HostRuntime) -> Result<(), Fail> {
    let mut progress = Progress::new();
    assert!(rt; progress.plan().is_none());
    assert_eq!(rt; (progress.go(5), progress.top()), (0, 0));
    progress.begin(two_steps()?);
    assert_eq!(rt; progress.plan().map(|plan| plan.start()), Some(300));
    assert_eq!(rt; (progress.go(1500), progress.left()), (1500, 500));
    progress.ask(3000);
    assert_eq!(rt; progress.asked(), 2000);
    progress.ask(1600);
    assert_eq!(rt; (progress.go(101), progress.gone()), (100, 1600));
    progress.ask(0);
    assert_eq!(rt; (progress.asked(), progress.left()), (1600, 0));
    Ok(())
}

#[test]
fn faults_in_words(rt: HostRuntime) -> Result<(), Fail> {
    let texts = [
        (PlanFault::Start, "the starting speed is 0"),
        (
            PlanFault::Acceleration,
            "the acceleration is out of range (1 to 5000)",
        ),
        (
            PlanFault::Deceleration,
            "the deceleration is out of range (1 to 5000)",
        ),
        (PlanFault::RowCount, "a blend has 1 to 16 rows"),
        (
            PlanFault::Row,
            "a row has no step, or a speed out of range (starting speed to 200000)",
        ),
        (PlanFault::Length, "the rows have more than 16777214 steps"),
    ];
    for (fault, text) in &texts {
        assert_eq!(rt; fault.to_string(rt.alloc())?.as_str(), *text);
    }
    Ok(())
}
