/// What an instruction is charged as, by the names of the prices.
#[derive(Clone, Copy, Debug, PartialEq, Eq)]
pub enum PriceClass {
    Plain,

    /// `mul`, `div` and `rem`.
    MulDiv,

    /// `block`, `loop`, `if`, branches and `return`.
    Branch,

    /// Calls.
    Invoke,

    /// Loads and stores.
    Access,

    /// `memory.grow`.
    Grow,

    /// `memory.copy` and `memory.fill`.
    Bulk,
}
