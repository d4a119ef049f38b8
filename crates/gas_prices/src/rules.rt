use crate::price_list::PriceList;
use fil_base::Cid;

/// The CIDs of the codes of the built-in actors.
#[derive(Debug, Drop)]
pub struct Codes {
    /// The system actor's.
    pub system: Cid,

    /// The init actor's, which makes actors.
    pub init: Cid,

    /// An account's.
    pub account: Cid,

    /// The reward actor's.
    pub reward: Cid,
}

/// What messages run under.
#[derive(Debug, Drop)]
pub struct Rules {
    /// What their work costs.
    pub prices: PriceList,

    /// The greatest depth of calls.
    pub depth: u32,

    /// The greatest number of pages of a memory.
    pub pages: u32,

    /// The codes of the actors that are built in.
    pub codes: Codes,
}
