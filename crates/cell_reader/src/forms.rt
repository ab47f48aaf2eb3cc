// What a read of a track makes of its cells.
ghost use Rattle.std.specs.Prelude.{◌≡◌, ◌≤◌, ◌+◌, ◌*◌, [], ◌∷◌, length, map, IsTrue, OnOk};
ghost use Rattle.disk_model.specs.Disk.{bytes_of};
ghost use Rattle.pcm_base.specs.declared.sound.Cell.{Cell as cell};
ghost use Rattle.pcm_base.specs.declared.sound.Cell.TheVariants.{Gap, Sample};
ghost use Rattle.pcm_base.specs.Mix.{heard_of};
ghost use Rattle.sample_block.specs.Spelling.{IsBlock};
ghost use Rattle.sample_block.specs.Faults.{samples_in};
ghost use Rattle.block_cache.specs.Caches.{HasSamples};
ghost use Rattle.block_cache.specs.Readers.{Hits, Reads};

use super::samples::read_as_cells;
use block_cache::BlockReader;
use block_store::BlockFault;
use disk_model::Store;
use pcm_base::{BlockRef, Cell};

/// More samples than this are read past the cache.
const LARGE: usize = 8192;

/// What a read of a track makes of each of its cells: the cell itself, or the sample that is heard of it, which is 0
/// for a gap.
pub trait FromCell: Copy {
    // What is made of a cell.
    ghost made: { cell → Self };

    /// What is made of a gap.
    fn gap() -> Self
        ensures { result ≡ made Gap };

    /// Reads samples of a block. After an error `out` may have been written in part.
    fn read<S: Store>(
        reader: &mut BlockReader<S>,
        block: BlockRef,
        from: u32,
        out: &mut [Self],
    ) -> Result<(), BlockFault>
        requires block { IsBlock block.id block.len }
        requires within { from + length out.old ≤ block.len }
        ensures reads { Reads (block ∷ []) reader.old reader.new result }
        ensures hit { Hits (HasSamples reader.old.cache block from (length out.old)) reader.old reader.new result }
        ensures stored { IsTrue (S.tells reader.old.store) → OnOk result (out.new ≡ map (λ s. made (Sample s))
            (samples_in (bytes_of (S.reads reader.old.store block.id)) (16 + 2 * from) (length out.old))) };
}

impl FromCell for Cell {
    ghost made = { λ c. c };

    fn gap() -> Cell {
        Cell::Gap
    }

    /// Reads by whole pages, which are kept.
    fn read<S: Store>(
        reader: &mut BlockReader<S>,
        block: BlockRef,
        from: u32,
        out: &mut [Cell],
    ) -> Result<(), BlockFault> {
        read_as_cells(reader, block, from, out)
    }
}

impl FromCell for i16 {
    ghost made = { heard_of };

    fn gap() -> i16 {
        0
    }

    /// Reads by whole pages, which are kept, or, where many are wanted, once, past the cache.
    fn read<S: Store>(
        reader: &mut BlockReader<S>,
        block: BlockRef,
        from: u32,
        out: &mut [i16],
    ) -> Result<(), BlockFault> {
        if out.len() <= LARGE {
            return reader.samples(block, from, out);
        }
        reader.samples_once(block, from, out)
    }
}
