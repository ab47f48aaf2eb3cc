// A row of references that several sequences have.
ghost use Rattle.std.specs.Prelude.{◌≡◌, ◌<◌, ◌≤◌, length, IfOk};
ghost use Rattle.pcm_base.specs.declared.limits.TheConstants.{MAX_CELLS};
ghost use Rattle.pcm_base.specs.Blocks.{blocks_len};

use pcm_base::{BlockRef, NoMemory};
use std::marker::Model;
use std::sync::Arc;

/// How many references a row has at most.
pub const ROW_MOST: usize = 1024;

/// Some references, at least one and at most `ROW_MOST`, with a count of their owners. Contracts see them as a list.
#[derive(Drop)]
pub struct Row {
    blocks: Arc<Vec<BlockRef>>,
    len: u64,
}

impl Model for Row {
    ghost use Rattle.std.specs.Prelude.{List};
    ghost use Rattle.std.specs.Arc.{arc_value};
    ghost use Rattle.pcm_base.specs.declared.block.BlockRef.{BlockRef};

    ghost Value = { List BlockRef };

    ghost use Rattle.block_sequence.specs.Rows.{IsRow};

    ghost view = { λ r. (arc_value r.blocks).items };

    ghost invariant = { λ r. IsRow (arc_value r.blocks).items r.len };
}

#[tactic(auto, using(crate::proofs::Whole::blocks_next))]
fn count(blocks: &[BlockRef]) -> u64
    requires { blocks_len blocks.now ≤ MAX_CELLS }
    ensures { result ≡ blocks_len blocks.now }
{
    let mut len = 0;
    for block in blocks {
        len += block.len as u64;
    }
    len
}

impl Row {
    // The row takes the references over.
    pub(crate) fn new(blocks: Vec<BlockRef>) -> Result<Row, NoMemory>
        requires some { 0 < length blocks.items }
        requires short { length blocks.items ≤ 1024 }
        requires few { blocks_len blocks.items ≤ MAX_CELLS }
        ensures { IfOk result (λ r. r ≡ blocks.items) }
    {
        let alloc = *blocks.allocator();
        let len = count(blocks.as_slice());
        let Ok(blocks) = Arc::new(alloc, blocks) else {
            return Err(NoMemory);
        };
        Ok(Row { blocks, len })
    }

    /// The references, in order.
    pub fn as_slice(&self) -> &[BlockRef]
        ensures value { result.now ≡ self.now }
        ensures some { 0 < length self.now }
        ensures short { length self.now ≤ 1024 }
    {
        let _len = self.len;
        self.blocks.as_slice()
    }

    /// How many samples the blocks hold.
    pub fn len(&self) -> u64
        ensures { result ≡ blocks_len self.now }
    {
        self.len
    }

    // The same references, which both have then.
    pub(crate) fn copy(&self) -> Result<Row, NoMemory>
        ensures { IfOk result (λ r. r ≡ self.now) }
    {
        let blocks = Arc::try_clone(&self.blocks)?;
        let len = self.len;
        Ok(Row { blocks, len })
    }
}
