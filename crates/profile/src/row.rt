// A row of a plan: so many steps, at a speed in millisteps a tick.
#[derive(Clone, Copy, PartialEq, Eq, Default, Debug)]
pub struct Row {
    pub steps: u32,
    pub speed: u32,
}
