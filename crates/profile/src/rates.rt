// The acceleration and the deceleration of a plan: changes of speed a tick, as the rule of each profile uses them. Whether they are 1 to
// 5,000 is asked by whoever takes them, among questions and with refusals of its own.
#[derive(Clone, Copy, PartialEq, Eq, Debug)]
pub struct Rates {
    pub accel: u32,
    pub decel: u32,
}
