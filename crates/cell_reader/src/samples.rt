// Samples of a block as cells.
ghost use Rattle.std.specs.Prelude.{◌≡◌, ◌≤◌, ◌<◌, ◌+◌, ◌*◌, [], ◌∷◌, length, map, IsTrue, OnOk};
ghost use Rattle.disk_model.specs.Disk.{bytes_of};
ghost use Rattle.sample_block.specs.Spelling.{IsBlock};
ghost use Rattle.sample_block.specs.Faults.{samples_in};
ghost use Rattle.block_cache.specs.Caches.{HasSamples};
ghost use Rattle.block_cache.specs.Readers.{Hits, Reads};
ghost use Rattle.pcm_base.specs.declared.sound.Cell.TheVariants.{Sample};

use block_cache::BlockReader;
use block_store::BlockFault;
use disk_model::Store;
use pcm_base::{BlockRef, Cell};

/// How many samples are read at a time.
const BUFFER_LEN: usize = 4096;

/// How many samples are few: a small buffer, which has room for them, is made sooner.
const FEW: usize = 512;

fn put_samples(samples: &[i16], out: &mut [Cell])
    requires { length out.old ≡ length samples.now }
    ensures { out.new ≡ map Sample samples.now }
{
    for i in 0..samples.len() {
        out[i] = Cell::Sample(samples[i]);
    }
}

/// Reads samples that fit the buffer.
fn read_buffer<S: Store>(
    reader: &mut BlockReader<S>,
    block: BlockRef,
    from: u32,
    buf: &mut [i16],
    out: &mut [Cell],
) -> Result<(), BlockFault>
    requires block { IsBlock block.id block.len }
    requires within { from + length out.old ≤ block.len }
    requires room { length out.old ≤ length buf.old }
    ensures reads { Reads (block ∷ []) reader.old reader.new result }
    ensures hit { Hits (HasSamples reader.old.cache block from (length out.old)) reader.old reader.new result }
    ensures stored { IsTrue (S.tells reader.old.store) → OnOk result (out.new ≡ map Sample
        (samples_in (bytes_of (S.reads reader.old.store block.id)) (16 + 2 * from) (length out.old))) }
{
    let buffer = &mut buf[..out.len()];
    reader.samples(block, from, buffer)?;
    put_samples(buffer, out);
    Ok(())
}

/// Reads samples, as many at a time as the buffer has room for.
fn read_buffers<S: Store>(
    reader: &mut BlockReader<S>,
    block: BlockRef,
    from: u32,
    buf: &mut [i16],
    out: &mut [Cell],
) -> Result<(), BlockFault>
    requires block { IsBlock block.id block.len }
    requires within { from + length out.old ≤ block.len }
    requires some { 0 < length buf.old }
    ensures reads { Reads (block ∷ []) reader.old reader.new result }
    ensures hit { Hits (HasSamples reader.old.cache block from (length out.old)) reader.old reader.new result }
    ensures stored { IsTrue (S.tells reader.old.store) → OnOk result (out.new ≡ map Sample
        (samples_in (bytes_of (S.reads reader.old.store block.id)) (16 + 2 * from) (length out.old))) }
{
    let most = buf.len();
    let mut done = 0;
    'buffers: while done < out.len() {
        let next = done + most.min(out.len() - done);
        let at = from + done as u32;
        if let Err(fault) = read_buffer(reader, block, at, buf, &mut out[done..next]) {
            return Err(fault);
        }
        done = next;
    }
    Ok(())
}

/// Reads samples of a block as cells.
pub(crate) fn read_as_cells<S: Store>(
    reader: &mut BlockReader<S>,
    block: BlockRef,
    from: u32,
    out: &mut [Cell],
) -> Result<(), BlockFault>
    requires block { IsBlock block.id block.len }
    requires within { from + length out.old ≤ block.len }
    ensures reads { Reads (block ∷ []) reader.old reader.new result }
    ensures hit { Hits (HasSamples reader.old.cache block from (length out.old)) reader.old reader.new result }
    ensures stored { IsTrue (S.tells reader.old.store) → OnOk result (out.new ≡ map Sample
        (samples_in (bytes_of (S.reads reader.old.store block.id)) (16 + 2 * from) (length out.old))) }
{
    if out.len() <= FEW {
        let mut buf = [0i16; FEW];
        return read_buffer(reader, block, from, &mut buf, out);
    }
    let mut buf = [0i16; BUFFER_LEN];
    read_buffers(reader, block, from, &mut buf, out)
}
