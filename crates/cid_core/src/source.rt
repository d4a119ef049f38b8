ghost use Rattle.std.specs.Prelude.{◌≡◌, List};
ghost use Rattle.std.specs.Option.{option_copied};
ghost use Rattle.cid_core.specs.BlockParts.{BlockParts, found};

use crate::block::Block;
use fil_base::Cid;

/// Where blocks are found by their CID.
pub trait BlockSource {
    // The blocks, in their order.
    ghost blocks: { Self → List BlockParts };

    /// The first block under the CID. It takes no memory, and never waits.
    fn find(&self, cid: &Cid) -> Option<&Block>
        ensures { option_copied result ≡ found (blocks self.now) cid.now };
}
