use fil_base::{ActorId, ExitCode, Row, Token};

/// An account list: the actors by rising ID, and the messages in the order in which they are run.
#[derive(Debug, Drop)]
pub struct Form0 {
    /// The epoch, below 2^63. It is printed and has no other meaning.
    pub epoch: u64,
    pub actors: Row<Form0Actor>,
    pub messages: Row<Form0Message>,
}

/// An actor's account.
#[derive(Clone, Copy, Debug, PartialEq, Eq)]
pub struct Form0Actor {
    pub id: ActorId,

    /// The nonce that the actor's next message must have.
    pub nonce: u64,
    pub balance: Token,
}

/// A message: a transfer of tokens from one actor to another.
#[derive(Clone, Copy, Debug, PartialEq, Eq)]
pub struct Form0Message {
    pub from: ActorId,
    pub to: ActorId,

    /// At most 2^64 - 2.
    pub nonce: u64,
    pub value: Token,
}

/// What running an account list gives: how each message ended, and the accounts at the end, by rising ID.
#[derive(Debug, Drop)]
pub struct Form0Report {
    pub epoch: u64,
    pub exits: Row<ExitCode>,
    pub actors: Row<Form0Actor>,
}
