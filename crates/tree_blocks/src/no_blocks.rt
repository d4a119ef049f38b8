use cid_core::{Block, BlockSource};
use fil_base::Cid;

/// A base that holds no blocks.
#[derive(Clone, Copy, Debug)]
pub struct NoBlocks;

impl BlockSource for NoBlocks {
    ghost use Rattle.std.specs.Prelude.{[]};

    ghost blocks = { λ _. [] };

    fn find(&self, _cid: &Cid) -> Option<&Block> {
        None
    }
}
