//! How high operands and blocks may be stacked.

/// The most operands that a body may have at once, those of all its open blocks together.
pub const MOST_HEIGHT: usize = 1_024;

/// The most blocks that may be open at once in a body, the body itself not counted.
pub const MOST_NESTING: usize = 1_024;
