// Rows that are laid one after another.
ghost use Rattle.std.specs.Prelude.{◌≡◌, ◌+◌, ◌≤◌, ◌<◌, ◌++◌, [], length, OnOk};
ghost use Rattle.pcm_base.specs.declared.limits.TheConstants.{MAX_CELLS};
ghost use Rattle.pcm_base.specs.Blocks.{blocks_len};

use super::rows::Row;
use pcm_base::{BlockRef, NoMemory};
use std::alloc::Global;
use std::marker::Model;

/// Rows of references, of which a sequence is made. So a long list need not lie in memory as one. Contracts see a list.
#[derive(Drop)]
pub struct RowList {
    pub(crate) rows: Vec<Row>,
    len: u64,
}

impl Model for RowList {
    ghost use Rattle.std.specs.Prelude.{List};
    ghost use Rattle.pcm_base.specs.declared.block.BlockRef.{BlockRef};

    ghost Value = { List BlockRef };

    ghost use Rattle.block_sequence.specs.Rows.{flat, AreLaid};

    ghost view = { λ s. flat s.rows.items };

    ghost invariant = { λ s. AreLaid (flat s.rows.items) s.len };
}

impl RowList {
    /// No rows yet.
    pub fn new(alloc: Global) -> RowList
        ensures { result ≡ [] }
    {
        let rows = Vec::new(alloc);
        RowList { rows, len: 0 }
    }

    /// How many samples the blocks hold.
    pub fn len(&self) -> u64
        ensures value { result ≡ blocks_len self.now }
        ensures few { result ≤ MAX_CELLS }
    {
        self.len
    }

    /// One row more, which takes the references over.
    ///
    /// # Errors
    ///
    /// There is no memory for the row.
    pub fn push(&mut self, blocks: Vec<BlockRef>) -> Result<(), NoMemory>
        requires some { 0 < length blocks.items }
        requires short { length blocks.items ≤ 1024 }
        requires few { blocks_len self.old + blocks_len blocks.items ≤ MAX_CELLS }
        ensures { OnOk result (self.new ≡ self.old ++ blocks.items) }
    {
        let row = Row::new(blocks)?;
        let len = row.len();
        self.rows.push(row)?;
        self.len += len;
        Ok(())
    }
}
