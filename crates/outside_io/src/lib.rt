//! What the machine sees of the outside: a source of bytes, a sink for bytes, and an observer of evaluations.
//!
//! A [`Source`] and a [`Sink`] fail as readers and writers do (POSIX.1-2017, `read` and `write`): a call may move fewer
//! bytes than it was asked to, and may fail. Each counts its faults, so that a caller above can say that it answers
//! "failed" only where the outside did.
//!
//! ```text
//! let mut source = MemSource::new(Bytes::of(bytes), 3, Row::of(failing));
//! let mut buffer = [0u8; 8];
//! match source.read(&mut buffer) {
//!     Ok(count) => ..,    // buffer[..count] has come; 0 is the end
//!     Err(Failed) => ..,
//! }
//! ```
#![tactic(auto)]

mod failed;
mod failing_calls;
mod gate;
mod mem_sink;
mod mem_source;
mod read_source;
mod safe_sink;
mod safe_source;
mod sink;
mod source;
#[cfg(test)]
mod tests;
mod unread;
mod write_sink;

pub use failed::Failed;
pub use gate::{Gate, NoGate};
pub use mem_sink::MemSink;
pub use mem_source::MemSource;
pub use read_source::ReadSource;
pub use safe_sink::SafeSink;
pub use safe_source::SafeSource;
pub use sink::Sink;
pub use source::Source;
pub use write_sink::WriteSink;
