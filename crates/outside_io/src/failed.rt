/// A source or a sink failed, and has counted it among its faults.
#[derive(Clone, Copy, Debug, PartialEq, Eq)]
pub struct Failed;
