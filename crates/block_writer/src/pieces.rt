// The samples of pieces.
ghost use Rattle.std.specs.Prelude.{◌≡◌, ◌+◌, ◌≤◌, ℤ, List, length, map, take, drop, Some, IsTrue, false, OnOk};
ghost use Rattle.std.specs.Prelude.{IfErr};
ghost use Rattle.pcm_base.specs.Arithmetic.{clamped, scaled};
ghost use Rattle.pcm_base.specs.Pieces.{piece_len as len_of, total};
ghost use Rattle.disk_model.specs.Disk.{bytes_of};
ghost use Rattle.disk_model.specs.Frames.{Kept};
ghost use Rattle.sample_block.specs.Blocks.{blocks};
ghost use Rattle.sample_block.specs.Spelling.{IsBlock};
ghost use Rattle.block_store.specs.Reads.{Counted, IsCompared, IsFault};
ghost use Rattle.block_writer.specs.Brought.{AreInOrder};
ghost use Rattle.block_writer.specs.Bringers.{StillBrings};
ghost use Rattle.block_writer.specs.Making.{IsPart, AreParts, IsFaultReadOf, IsFaultRead, IsBroughtFault, MadeCounted};
ghost use Rattle.block_writer.specs.Making.{MadeBrought};
ghost use Rattle.block_writer.specs.Reading.{IsReadable, AllReadable, IsThere, AllThere};

use super::brings::Brings;
use super::fault::MakeFault;
use block_sequence::piece_len;
use block_store::{BlockFault, compare_once, read_compared_samples};
use disk_model::Store;
use pcm_base::{BlockRef, Piece, clamped, scaled};

/// Each sample under a gain, limited to 16 bits.
fn scale(gain: u32, out: &mut [i16])
    ensures { out.new ≡ map (λ s. clamped (scaled gain s)) out.old }
{
    for i in 0..out.len() {
        let sample = out[i];
        out[i] = clamped(scaled(gain, sample));
    }
}

/// Makes `out` the samples of a block from a place on. Its header is read unless it was the last that was compared.
fn read_old<S: Store>(
    store: &mut S,
    last: &mut Option<BlockRef>,
    block: BlockRef,
    from: u32,
    out: &mut [i16],
) -> Result<(), BlockFault>
    requires block { IsBlock block.id block.len }
    requires within { from + length out.old ≤ block.len }
    requires compared { IsTrue (S.tells store.old) → IsCompared (S.reads store.old) last.old }
    ensures compared { IsTrue (S.tells store.old) → IsCompared (S.reads store.old) last.new }
    ensures read { (xs : List ℤ) → IsTrue (S.tells store.old) → blocks (S.reads store.old) block.id ≡ Some xs
        → length xs ≡ block.len
        → OnOk result (out.new ≡ take (length out.old) (drop from xs)) }
    ensures damaged { IsTrue (S.tells store.old)
        → IfErr result (λ e. IsFault block.id block.len (bytes_of (S.reads store.old block.id)) e) }
    ensures kept { Kept S.Store store.old store.new }
    ensures faults { Counted result (S.read_fault_count store.old) (S.read_fault_count store.new) }
{
    if let Err(fault) = compare_once(store, last, block) {
        return Err(fault);
    }
    if let Err(fault) = read_compared_samples(store, block, from, out) {
        return Err(fault);
    }
    Ok(())
}

/// Makes `out` the samples of a piece, of a block of the disk or of what the command brings. It takes no memory. After
/// an error `out` may have been written in part. Bytes of a vault are read into `buf` first.
fn read_piece<S: Store, G: Brings>(
    store: &mut S,
    last: &mut Option<BlockRef>,
    piece: Piece,
    given: &mut G,
    out: &mut [i16],
    buf: &mut [u8],
) -> Result<(), MakeFault>
    requires piece { IsReadable (G.brings given.old).count piece }
    requires len { length out.old ≡ len_of piece }
    requires buffer { 64 ≤ length buf.old }
    requires compared { IsTrue (S.tells store.old) → IsCompared (S.reads store.old) last.old }
    ensures compared { IsTrue (S.tells store.old) → IsCompared (S.reads store.old) last.new }
    ensures read { IsTrue (S.tells store.old) → IsThere (S.reads store.old) piece
        → OnOk result (IsPart (G.brings given.old) (S.reads store.old) piece out.new) }
    ensures damaged { IsTrue (S.tells store.old) → IfErr result (IsFaultReadOf (S.reads store.old) piece) }
    ensures refused { IfErr result (IsBroughtFault (G.brings given.old)) }
    ensures kept { Kept S.Store store.old store.new }
    ensures faults { MadeCounted result (S.read_fault_count store.old) (S.read_fault_count store.new)
        (S.change_fault_count store.old) (S.change_fault_count store.new) }
    ensures still { StillBrings G.Brings given.old given.new }
    ensures given { MadeBrought result (G.fault_count given.old) (G.fault_count given.new) }
{
    match piece {
        Piece::Old { block, from, to: _ } => {
            if let Err(fault) = read_old(store, last, block, from, out) {
                return Err(MakeFault::Read { fault });
            }
            Ok(())
        }
        Piece::Scaled {
            block,
            from,
            to: _,
            gain,
        } => {
            if let Err(fault) = read_old(store, last, block, from, out) {
                return Err(MakeFault::Read { fault });
            }
            scale(gain, out);
            Ok(())
        }
        Piece::Zero { len: _ } => {
            out.fill(0);
            Ok(())
        }
        Piece::Given { from, to: _ } => {
            if let Err(fault) = given.fill(from, out, buf) {
                return Err(MakeFault::Bring { fault });
            }
            Ok(())
        }
    }
}

/// The same of pieces one after another. Where it is not known before which samples the command brings, none of them
/// is read twice.
pub(crate) fn read_pieces<S: Store, G: Brings>(
    store: &mut S,
    pieces: &[Piece],
    given: &mut G,
    out: &mut [i16],
    buf: &mut [u8],
) -> Result<(), MakeFault>
    requires pieces { AllReadable (G.brings given.old).count pieces.now }
    requires order { (G.brings given.old).tells ≡ false → AreInOrder 0 (G.brings given.old).count pieces.now }
    requires len { length out.old ≡ total pieces.now }
    requires buffer { 64 ≤ length buf.old }
    ensures read { IsTrue (S.tells store.old) → AllThere (S.reads store.old) pieces.now
        → OnOk result (AreParts (G.brings given.old) (S.reads store.old) pieces.now out.new) }
    ensures damaged { IsTrue (S.tells store.old) → IfErr result (IsFaultRead (S.reads store.old) pieces.now) }
    ensures refused { IfErr result (IsBroughtFault (G.brings given.old)) }
    ensures kept { Kept S.Store store.old store.new }
    ensures faults { MadeCounted result (S.read_fault_count store.old) (S.read_fault_count store.new)
        (S.change_fault_count store.old) (S.change_fault_count store.new) }
    ensures still { StillBrings G.Brings given.old given.new }
    ensures given { MadeBrought result (G.fault_count given.old) (G.fault_count given.new) }
{
    let mut done = 0;
    let mut last = None;
    'pieces: for piece in pieces {
        let next = done + piece_len(*piece) as usize;
        let part = &mut out[done..next];
        if let Err(why) = read_piece(store, &mut last, *piece, given, part, buf) {
            return Err(why);
        }
        done = next;
    }
    Ok(())
}
