// What C and Rust can call of the benchmark: plans run to their end, and calls of an axis.
//
// The rows of a plan stand as steps, speed, steps, speed, .. . A plan's call writes the number of ticks and then the sum over the advances
// to the front of `out`; where there is no such plan, or no room for both, it leaves `out` alone. C passes numbers and slices only and
// names each call, so each takes the rates apart and promises the same of its own `out`.
#![tactic(auto)]

ghost use Rattle.std.specs.Prelude.{◌≡◌, ◌-◌, ◌<◌, ◌≤◌, ◌⊎◌, [], length, Some};
ghost use Rattle.profile.specs.Plans.{plan_fault};
ghost use Rattle.profile.specs.declared.fault.PlanFault.{PlanFault};
ghost use Rattle.bench.specs.Flat.{plan_in, MakePlan, Told};
ghost use Rattle.smoothing.specs.Lengths.{length_for};
ghost use Rattle.coded.specs.Calls.{IsStuck};

use bench::flat::run_flat;
use coded::numbers::bed_of;
use coded::run::{Unmade, run_calls};
use profile::rates::Rates;
use ramp::ramp::Ramp;
use smoothing::smoothed::Smoothed;

// A plan at constant acceleration.
#[unsafe(no_mangle)]
pub extern "C" fn longbed_ramp(start: u32, accel: u32, decel: u32, rows: &[u32], out: &mut [u64])
    ensures refused { (e : PlanFault) → plan_fault (plan_in start accel decel rows.now) ≡ Some e → out.new ≡ out.old }
    ensures short { length out.old < 2 → out.new ≡ out.old }
    ensures told { MakePlan (plan_in start accel decel rows.now) rows.now → 2 ≤ length out.old → Told (plan_in start accel decel rows.now) 0 out.old out.new }
{
    if let Some(outcome) = run_flat(&mut Ramp::new(), start, Rates { accel, decel }, rows) {
        outcome.tell(out);
    }
}

// The same under a smoothing over the last `window` ticks, 1 to 64: 0 counts as 1, and more as 64.
#[unsafe(no_mangle)]
pub extern "C" fn longbed_smoothed(
    start: u32,
    accel: u32,
    decel: u32,
    window: u32,
    rows: &[u32],
    out: &mut [u64],
)
    ensures refused { (e : PlanFault) → plan_fault (plan_in start accel decel rows.now) ≡ Some e → out.new ≡ out.old }
    ensures short { length out.old < 2 → out.new ≡ out.old }
    ensures told { MakePlan (plan_in start accel decel rows.now) rows.now → 2 ≤ length out.old → Told (plan_in start accel decel rows.now) (length_for window - 1) out.old out.new }
{
    let mut profile = Smoothed::new(Ramp::new(), window as usize);
    if let Some(outcome) = run_flat(&mut profile, start, Rates { accel, decel }, rows) {
        outcome.tell(out);
    }
}

// Calls of a new axis, and their answers, as crate `coded` says. The bed is given by small numbers (`bed_of`). Answers 0, or 1 where there
// is no such bed, 2 where a call cannot be read, and 3 where the answers of a call find no room; the calls before it were made.
#[unsafe(no_mangle)]
pub extern "C" fn longbed_calls(
    drive: u8,
    profile: u8,
    outer: u32,
    inner: u32,
    calls: &[u8],
    out: &mut [i32],
) -> u8
    ensures unknown { (1 < drive) ⊎ (5 < profile) → (result ≡ 1) × (out.new ≡ out.old) }
    ensures unreadable { drive ≤ 1 → profile ≤ 5 → IsStuck calls.now (length out.old) Unmade.Unreadable → (result ≡ 2) × (out.new ≡ out.old) }
    ensures crowded { drive ≤ 1 → profile ≤ 5 → IsStuck calls.now (length out.old) Unmade.NoRoom → (result ≡ 3) × (out.new ≡ out.old) }
    ensures none { calls.now ≡ [] → (result < 2) × (out.new ≡ out.old) }
    ensures made { drive ≤ 1 → profile ≤ 5 → calls.now ≡ [] → result ≡ 0 }
{
    let Some(bed) = bed_of(drive, profile, outer, inner) else {
        return 1;
    };
    match run_calls(bed, calls, out) {
        Ok(()) => 0,
        Err(Unmade::Unreadable) => 2,
        Err(Unmade::NoRoom) => 3,
    }
}
