// An axis in operation: the axis, and the journal of the calls that were made of it.
use crate::entry::Entry;
use axis::axis::Axis;

mod calls;

#[derive(Drop)]
pub struct Operation<D, P> {
    pub axis: Axis<D, P>,
    pub journal: Vec<Entry>,
}
