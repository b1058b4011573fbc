// Why numbers make no plan.
use thiserror::Error;

#[derive(Clone, Copy, PartialEq, Eq, Debug, Error)]
pub enum PlanFault {
    // The starting speed is 0.
    #[error("the starting speed is 0")]
    Start,
    // The acceleration is not 1 to 5,000.
    #[error("the acceleration is out of range (1 to 5000)")]
    Acceleration,
    // The deceleration is not 1 to 5,000.
    #[error("the deceleration is out of range (1 to 5000)")]
    Deceleration,
    // There is no row, or there are more than 16.
    #[error("a blend has 1 to 16 rows")]
    RowCount,
    // A row has no step, or a speed below the starting speed or above 200,000.
    #[error("a row has no step, or a speed out of range (starting speed to 200000)")]
    Row,
    // The steps add up to more than 16,777,214.
    #[error("the rows have more than 16777214 steps")]
    Length,
}
