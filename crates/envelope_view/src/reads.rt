// How much is read of a block at once.
ghost use Rattle.std.specs.Prelude.{◌≡◌, ◌+◌, ◌≤◌, length, take, drop};
ghost use Rattle.sample_block.specs.Spelling.{IsBlock};
ghost use Rattle.block_cache.specs.Caches.{HasSamples};
ghost use Rattle.envelope_view.specs.Parts.{ReadsBlock};

use block_cache::BlockReader;
use block_store::BlockFault;
use disk_model::Store;
use pcm_base::BlockRef;

/// A quarter of a page of samples. Where the next edges are nearer, four and more are on one page.
const NEAR: u64 = 1024;

/// Reads samples at the edge of a column that ends at least `reach` cells after them: their page and keeps it, unless
/// few other edges are on it.
pub(crate) fn read_samples<S: Store>(
    reader: &mut BlockReader<S>,
    block: BlockRef,
    reach: u64,
    from: u32,
    out: &mut [i16],
) -> Result<(), BlockFault>
    requires block { IsBlock block.id block.len }
    requires within { from + length out.old ≤ block.len }
    ensures { ReadsBlock block (λ c. HasSamples c block from (length out.old))
        (λ xs read. out.new ≡ take (length out.old) (drop from xs)) reader.old reader.new result }
{
    if reach < NEAR {
        return reader.samples(block, from, out);
    }
    reader.samples_once(block, from, out)
}
