use fil_base::Row;
use fil_message::Tipset;
use gas_prices::Codes;

/// The rules of a scenario, before they are judged.
#[derive(Drop)]
pub(crate) struct RawRules {
    /// The prices, by their numbers.
    pub prices: Row<u64>,

    /// The greatest depth of calls.
    pub depth: u64,

    /// The greatest number of pages of a memory.
    pub pages: u64,

    /// The codes of the actors that are built in.
    pub codes: Codes,
}

/// A scenario, before its rules and states are judged. Definitions speak of it; what the code has of it at a time is an
/// [`Outline`](crate::outline::Outline).
#[derive(Drop)]
pub(crate) struct RawScenario {
    /// The rules.
    pub rules: RawRules,

    /// The tipsets.
    pub tipsets: Row<Tipset>,
}
