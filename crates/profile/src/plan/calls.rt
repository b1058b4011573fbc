// What a plan tells.
ghost use Rattle.std.specs.Prelude.{◌≡◌};
ghost use Rattle.profile.specs.Plans.{plan_means, plan_steps, plan_top};

use super::Plan;
use crate::rates::Rates;
use crate::row::Row;

impl Plan {
    // The starting speed, in millisteps a tick.
    pub fn start(&self) -> u32
        ensures { result ≡ (plan_means self.now).start }
    {
        self.start
    }

    // The acceleration.
    pub fn accel(&self) -> u32
        ensures { result ≡ (plan_means self.now).accel }
    {
        self.rates.accel
    }

    // The deceleration.
    pub fn decel(&self) -> u32
        ensures { result ≡ (plan_means self.now).decel }
    {
        self.rates.decel
    }

    pub fn rates(&self) -> Rates
        ensures accel { result.accel ≡ (plan_means self.now).accel }
        ensures decel { result.decel ≡ (plan_means self.now).decel }
    {
        self.rates
    }

    pub fn rows(&self) -> &[Row]
        ensures { result.now ≡ (plan_means self.now).rows }
    {
        &self.rows[..self.count]
    }

    // The steps of all rows.
    pub fn steps(&self) -> u32
        ensures { result ≡ plan_steps (plan_means self.now) }
    {
        self.steps
    }

    // The greatest speed of a row.
    pub fn top(&self) -> u32
        ensures { result ≡ plan_top (plan_means self.now) }
    {
        self.top
    }
}
