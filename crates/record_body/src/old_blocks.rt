// How many samples the first of some blocks hold.
ghost use Rattle.std.specs.Prelude.{◌≡◌, ◌≤◌, take};
ghost use Rattle.pcm_base.specs.declared.limits.TheConstants.{MAX_CELLS};
ghost use Rattle.pcm_base.specs.Blocks.{blocks_len};
ghost use Rattle.block_sequence.specs.Rows.{flat};

use block_sequence::Row;
use pcm_base::BlockRef;

/// How many samples the blocks hold.
#[tactic(auto, using(crate::proofs::Tails::blocks_next))]
fn total(blocks: &[BlockRef]) -> u64
    requires { blocks_len blocks.now ≤ MAX_CELLS }
    ensures { result ≡ blocks_len blocks.now }
{
    let mut len = 0;
    for block in blocks {
        len += block.len as u64;
    }
    len
}

/// How many samples this many of the first blocks hold.
pub(crate) fn len_to(rows: &[Row], count: usize) -> u64
    requires { blocks_len (flat rows.now) ≤ MAX_CELLS }
    ensures { result ≡ blocks_len (take count (flat rows.now)) }
{
    let mut left = count;
    let mut len = 0;
    for row in rows {
        let blocks = row.as_slice();
        let here = left.min(blocks.len());
        len += total(&blocks[..here]);
        left -= here;
    }
    len
}
