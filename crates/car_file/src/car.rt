use cid_core::Block;
use fil_base::{Cid, Row};

/// What an archive holds: its root, and its blocks in their order, repeats among them.
#[derive(Debug, Drop)]
pub struct Car {
    pub root: Cid,
    pub blocks: Row<Block>,
}
