use fil_address::Address;
use fil_base::{Bytes, Gas, Token};

/// A message (the Filecoin specification, "Messages").
#[derive(Debug, Drop)]
pub struct Message {
    /// The receiver.
    pub to: Address,

    /// The sender.
    pub from: Address,

    /// The sequence number that the sender must have, at most 2^64 - 2.
    pub nonce: u64,

    /// What is sent.
    pub value: Token,

    /// The most gas that may be used, at most 10^10.
    pub limit: Gas,

    /// The most that is paid for one unit of gas.
    pub cap: Token,

    /// The most that the miner is paid for one unit of gas.
    pub premium: Token,

    /// The method that is called; 0 sends the value alone.
    pub method: u64,

    /// What the method is given.
    pub params: Bytes,
}
