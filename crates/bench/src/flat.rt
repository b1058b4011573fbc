// Plans from flat numbers: the rows stand as steps, speed, steps, speed, ..
ghost use Rattle.std.specs.Prelude.{◌≡◌, ◌*◌, ◌≤◌, length, map, if◌then◌else◌, is_some, IfSome, nat_le, true, Some, None};
ghost use Rattle.profile.specs.Plans.{plan_fault, plan_steps};
ghost use Rattle.profile.specs.Profiles.{plan_ticks};
ghost use Rattle.profile.specs.declared.fault.PlanFault.{PlanFault};
ghost use Rattle.bench.specs.Flat.{MakePlan, MadeOf, plan_in, pair_row};

use crate::run::{Outcome, run_plan};
use profile::list::RowList;
use profile::plan::Plan;
use profile::rates::Rates;
use profile::row::Row;
use profile::traits::Profile;

// The rows of pairs of steps and speed; none if they are too many. A loop of its own beside `RowList::of`: what they share is `push`.
#[inline(always)]
fn rows_of(pairs: &[[u32; 2]]) -> Option<RowList>
    ensures { result ≡ (if nat_le (length pairs.now) 16 then Some (map pair_row pairs.now) else None) }
{
    let mut rows = RowList::new();
    for &[steps, speed] in pairs {
        rows.push(Row { steps, speed }).ok()?;
    }
    Some(rows)
}

// A plan of rows that stand flat; none if a number is missing, if there are too many rows, or if there is no such plan. It tells no fault,
// since C is told none.
#[tactic(auto, using(crate::proofs::Pairs::rows_in_pairs, std::proofs::lemmas::Grind::common_steps))]
#[inline(always)]
pub fn plan_of(start: u32, rates: Rates, flat: &[u32]) -> Option<Plan>
    ensures { MadeOf (plan_in start rates.accel rates.decel flat.now) flat.now result }
{
    let (pairs, rest) = flat.as_chunks::<2>();
    if !rest.is_empty() {
        return None;
    }
    Plan::new(start, rates, rows_of(pairs)?.as_slice()).ok()
}

// What a plan of rows that stand flat comes to, from its begin to its end, if there is such a plan.
pub fn run_flat<P: Profile>(
    profile: &mut P,
    start: u32,
    rates: Rates,
    rows: &[u32],
) -> Option<Outcome>
    ensures refused { (e : PlanFault) → plan_fault (plan_in start rates.accel rates.decel rows.now) ≡ Some e → result ≡ None }
    ensures gone { IfSome result (λ outcome. outcome.gone ≡ 1000 * plan_steps (plan_in start rates.accel rates.decel rows.now)) }
    ensures soon { IfSome result (λ outcome. outcome.ticks ≤ plan_ticks (plan_in start rates.accel rates.decel rows.now) (P.Profile.means profile.old).lag) }
    ensures made { MakePlan (plan_in start rates.accel rates.decel rows.now) rows.now → is_some result ≡ true }
{
    let plan = plan_of(start, rates, rows)?;
    Some(run_plan(profile, plan, None))
}
