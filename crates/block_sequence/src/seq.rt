// A sequence of blocks.
ghost use Rattle.std.specs.Prelude.{◌≡◌, ℕ, ◌-◌, ◌≤◌, ◌++◌, [], length, take, drop, IfOk, OnOk};
ghost use Rattle.pcm_base.specs.declared.limits.TheConstants.{MAX_CELLS};
ghost use Rattle.pcm_base.specs.Pieces.{Sources, all_samples, total, AllValid};
ghost use Rattle.pcm_base.specs.Blocks.{NoneEmpty, block_samples, blocks_len};
ghost use Rattle.block_sequence.specs.Fronts.{common};
ghost use Rattle.block_sequence.specs.Rows.{flat, from_to, spliced};
ghost use Rattle.block_sequence.specs.Sequences.{IsHalfFullSomewhere};

use super::laid_rows::RowList;
use super::row_appends::appended_rows;
use super::row_fronts::common_count;
use super::row_lists::{append_blocks, count_blocks, count_samples, lay_rows, share_rows};
use super::row_pieces::append_pieces;
use super::row_splices::{ended_rows, spliced_rows};
use super::rows::Row;
use super::types::Pieces;
use pcm_base::{BlockRef, NoMemory};
use std::alloc::{AllocError, Global};
use std::marker::Model;

/// The blocks of a clip, each of at least one sample, at most 2^32 samples in all, and half full. They lie in rows,
/// which several sequences may have. Contracts see them as one list.
#[derive(Drop)]
pub struct Sequence {
    rows: Vec<Row>,
    count: usize,
    len: u64,
}

impl Model for Sequence {
    ghost use Rattle.std.specs.Prelude.{List};
    ghost use Rattle.pcm_base.specs.declared.block.BlockRef.{BlockRef};

    ghost Value = { List BlockRef };

    ghost use Rattle.block_sequence.specs.Rows.{flat};
    ghost use Rattle.block_sequence.specs.Sequences.{IsSequence};

    ghost view = { λ s. flat s.rows.items };

    ghost invariant = { λ s. IsSequence (flat s.rows.items) s.count s.len };
}

// A sequence of all blocks of some rows.
fn from_rows(rows: Vec<Row>) -> Sequence
    requires full { IsHalfFullSomewhere (flat rows.items) }
    requires none_empty { NoneEmpty (flat rows.items) }
    requires few { blocks_len (flat rows.items) ≤ MAX_CELLS }
    ensures { result ≡ flat rows.items }
{
    let count = count_blocks(rows.as_slice());
    let len = count_samples(rows.as_slice());
    Sequence { rows, count, len }
}

impl Sequence {
    /// A sequence of blocks, each of at least one sample. A list of at most `ROW_MOST` references is taken over.
    ///
    /// # Errors
    ///
    /// There is no memory for the rows.
    pub fn new(blocks: Vec<BlockRef>) -> Result<Sequence, NoMemory>
        requires full { IsHalfFullSomewhere blocks.items }
        requires none_empty { NoneEmpty blocks.items }
        requires few { blocks_len blocks.items ≤ MAX_CELLS }
        ensures { IfOk result (λ s. s ≡ blocks.items) }
    {
        let alloc = *blocks.allocator();
        let mut rows = Vec::new(alloc);
        lay_rows(alloc, &mut rows, blocks)?;
        Ok(from_rows(rows))
    }

    /// A sequence of rows, which it takes over.
    pub fn of_rows(list: RowList) -> Sequence
        requires full { IsHalfFullSomewhere list }
        requires none_empty { NoneEmpty list }
        ensures { result ≡ list }
    {
        let _len = list.len();
        from_rows(list.rows)
    }

    /// The sequence of no blocks. It takes no memory.
    pub fn empty(alloc: Global) -> Sequence
        ensures { result ≡ [] }
    {
        from_rows(Vec::new(alloc))
    }

    /// How many samples the blocks hold.
    pub fn len(&self) -> u64
        ensures value { result ≡ blocks_len self.now }
        ensures samples { (src : Sources) → length (block_samples src self.now) ≡ result }
        ensures few { result ≤ MAX_CELLS }
    {
        self.len
    }

    /// How many blocks there are.
    pub fn count(&self) -> usize
        ensures value { result ≡ length self.now }
        ensures few { result ≤ MAX_CELLS }
    {
        self.count
    }

    /// The blocks, in rows. What is read row by row is read in order.
    pub fn rows(&self) -> &[Row]
        ensures value { flat result.now ≡ self.now }
        ensures none_empty { NoneEmpty self.now }
        ensures few { blocks_len self.now ≤ MAX_CELLS }
        ensures full { IsHalfFullSomewhere self.now }
    {
        self.rows.as_slice()
    }

    /// How many blocks stand at the front of both. The first `kept` are known to be the same, and are not compared.
    /// Where the rows are cut does not matter.
    pub fn common(&self, other: &Sequence, kept: usize) -> usize
        requires mine { kept ≤ length self.now }
        requires other { kept ≤ length other.now }
        requires same { take kept self.now ≡ take kept other.now }
        ensures value { result ≡ common self.now other.now }
        ensures few { result ≤ MAX_CELLS }
    {
        let mine = self.rows();
        let others = other.rows();
        common_count(mine, others, kept)
    }

    /// Another sequence of the same blocks: both have the rows, and no reference is copied.
    ///
    /// # Errors
    ///
    /// There is no memory for the copy.
    pub fn copy(&self) -> Result<Sequence, NoMemory>
        ensures { IfOk result (λ s. s ≡ self.now) }
    {
        let mut rows = Vec::new(*self.rows.allocator());
        share_rows(&mut rows, self.rows.as_slice())?;
        let count = self.count;
        let len = self.len;
        Ok(Sequence { rows, count, len })
    }

    /// The blocks from one place up to another come after those of `out`.
    ///
    /// # Errors
    ///
    /// There is no memory for them.
    pub fn append_to(
        &self,
        out: &mut Vec<BlockRef>,
        from: usize,
        to: usize,
    ) -> Result<(), AllocError>
        ensures { OnOk result (out.new.items ≡ out.old.items ++ from_to from to self.now) }
    {
        append_blocks(out, self.rows.as_slice(), from, to)
    }

    /// A sequence with other blocks in place of those from one place up to another. The two sequences have the rows in
    /// common that lie outside, but for a short one at each side.
    ///
    /// # Errors
    ///
    /// There is no memory for the new rows.
    pub fn splice(&self, from: usize, to: usize, middle: &[BlockRef]) -> Result<Sequence, NoMemory>
        requires rising { from ≤ to }
        requires within { to ≤ length self.now }
        requires full { IsHalfFullSomewhere (spliced from to middle.now self.now) }
        requires none_empty { NoneEmpty (spliced from to middle.now self.now) }
        requires few { blocks_len (spliced from to middle.now self.now) ≤ MAX_CELLS }
        ensures { IfOk result (λ s. s ≡ spliced from to middle.now self.now) }
    {
        let alloc = *self.rows.allocator();
        let rows = spliced_rows(alloc, self.rows(), from, to, middle)?;
        Ok(from_rows(rows))
    }

    /// A sequence of these blocks, and after them those of another from one place up to a second. The new one has the
    /// rows of both in common with them, but for those that are cut, or short.
    ///
    /// # Errors
    ///
    /// There is no memory for the new rows.
    pub fn append(&self, other: &Sequence, from: usize, to: usize) -> Result<Sequence, NoMemory>
        requires rising { from ≤ to }
        requires within { to ≤ length other.now }
        requires full { IsHalfFullSomewhere (self.now ++ from_to from to other.now) }
        requires none_empty { NoneEmpty (self.now ++ from_to from to other.now) }
        requires few { blocks_len (self.now ++ from_to from to other.now) ≤ MAX_CELLS }
        ensures { IfOk result (λ s. s ≡ self.now ++ from_to from to other.now) }
    {
        let alloc = *self.rows.allocator();
        let rows = appended_rows(alloc, self.rows(), other.rows(), from, to)?;
        Ok(from_rows(rows))
    }

    /// A sequence of the first blocks up to a place, and after them those of rows. It has both rows in common with
    /// them, but for one of each, or two where they are short.
    ///
    /// # Errors
    ///
    /// There is no memory for the new rows.
    pub fn ended(&self, kept: usize, others: &RowList) -> Result<Sequence, NoMemory>
        requires within { kept ≤ length self.now }
        requires full { IsHalfFullSomewhere (take kept self.now ++ others.now) }
        requires none_empty { NoneEmpty (take kept self.now ++ others.now) }
        requires few { blocks_len (take kept self.now ++ others.now) ≤ MAX_CELLS }
        ensures { IfOk result (λ s. s ≡ take kept self.now ++ others.now) }
    {
        let alloc = *self.rows.allocator();
        let rows = ended_rows(alloc, self.rows(), kept, others.rows.as_slice())?;
        Ok(from_rows(rows))
    }

    /// The samples from one place up to another, as pieces of the blocks that hold them.
    ///
    /// # Errors
    ///
    /// There is no memory for the pieces.
    pub fn slice(&self, from: u64, to: u64) -> Result<Pieces, NoMemory>
        requires rising { from ≤ to }
        requires within { to ≤ blocks_len self.now }
        ensures valid { IfOk result (λ p. AllValid p) }
        ensures total { IfOk result (λ p. total p ≡ to - from) }
        ensures samples { IfOk result
            (λ p. (src : Sources) → all_samples src p ≡ take (to - from) (drop from (block_samples src self.now))) }
    {
        let mut out = Vec::new(*self.rows.allocator());
        append_pieces(&mut out, self.rows.as_slice(), from, to)?;
        Ok(Pieces::new(out))
    }
}
