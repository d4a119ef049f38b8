//! Archives of blocks (the CARv1 specification): a header with one root, and blocks, each checked against its CID.
//!
//! A [`CarReader`] takes the bytes in pieces of any size.
//!
//! ```text
//! let mut reader = CarReader::new(alloc);
//! reader.feed(first)?;
//! reader.feed(second)?;
//! let car = reader.finish()?;             // car.root, car.blocks
//! let bytes = write_car(alloc, &car.root, car.blocks.as_slice())?;
//! ```
#![tactic(auto)]

mod car;
mod fault;
mod frame;
mod header;
mod laws;
mod reader;
mod section;
mod section_reader;
mod writing;

pub use car::Car;
pub use fault::{CarFault, CarKind};
pub use laws::{one_car, one_car_fault};
pub use reader::CarReader;
pub use writing::write_car;
