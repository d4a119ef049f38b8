use crate::message::Message;
use crate::receipt::ReceiptLine;
use fil_base::{ActorId, Cid, Row, Token};

/// A block of a tipset.
#[derive(Debug, Drop)]
pub struct TipBlock {
    /// Who is paid for the block.
    pub miner: ActorId,

    /// What is minted for it.
    pub award: Token,

    /// The messages, in their order.
    pub messages: Row<Message>,
}

/// The blocks of one epoch over one state (the Filecoin specification, "Tipset").
#[derive(Debug, Drop)]
pub struct Tipset {
    /// The epoch, below 2^63.
    pub epoch: u64,

    /// What is burned for one unit of gas.
    pub base_fee: Token,

    /// The root of the state that the messages run over.
    pub root: Cid,

    /// The blocks, in their order.
    pub blocks: Row<TipBlock>,
}

/// What a tipset's messages did.
#[derive(Debug, Drop)]
pub struct Report {
    /// The tipset's epoch.
    pub epoch: u64,

    /// The receipts, in the order of the messages.
    pub lines: Row<ReceiptLine>,

    /// The root of the receipts' AMT.
    pub receipts_root: Cid,

    /// The root of the state at the end.
    pub state_root: Cid,

    /// The gas that all messages used.
    pub gas: u64,

    /// What was minted.
    pub minted: Token,

    /// What was burned.
    pub burned: Token,

    /// How many times code was run.
    pub invocations: u64,

    /// The CIDs of the blocks that were made.
    pub made: Row<Cid>,
}
