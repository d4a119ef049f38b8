use fil_base::{Bytes, ExitCode, Gas};

/// How a message ended (the Filecoin specification, "Receipts").
#[derive(Debug, Drop)]
pub struct Receipt {
    /// The exit code.
    pub exit: ExitCode,

    /// What was returned.
    pub returned: Bytes,

    /// The gas used.
    pub used: Gas,
}

/// A receipt with the places of its block in the tipset and of its message in the block.
#[derive(Debug, Drop)]
pub struct ReceiptLine {
    /// The block's place, from 0.
    pub block: u32,

    /// The message's place in the block, from 0; messages that were passed over count.
    pub message: u32,

    /// How the message ended.
    pub receipt: Receipt,
}
