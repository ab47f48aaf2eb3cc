// New blocks are made of pieces.
ghost use Rattle.std.specs.Prelude.{◌≡◌, ◌≤◌, length, vec_capacity, IsTrue, false, OnOk, IfErr, None};
ghost use Rattle.pcm_base.specs.Pieces.{total};
ghost use Rattle.disk_model.specs.Disk.{SameElsewhere};
ghost use Rattle.disk_model.specs.Frames.{Kept, Changed};
ghost use Rattle.sample_block.specs.Spelling.{IsBlock, size_of};
ghost use Rattle.sample_block.specs.Blocks.{blocks};
ghost use Rattle.block_writer.specs.Brought.{AreInOrder};
ghost use Rattle.block_writer.specs.Bringers.{StillBrings};
ghost use Rattle.block_writer.specs.Reading.{AllReadable, AllThere};
ghost use Rattle.block_writer.specs.Making.{IsFilled, IsOfDevice, IsFaultRead, IsBroughtFault, NotPut, MadeCounted};
ghost use Rattle.block_writer.specs.Making.{MadeBrought};

use super::brings::Brings;
use super::fault::MakeFault;
use super::pieces::read_pieces;
use block_store::write_block;
use disk_model::Store;
use edit_ops::NewBlock;

/// Writes a new block of its pieces: reads their samples into the front of `samples`, and writes the block's file, but
/// does not wait until it is on the disk. The file is absent, the id is from 16 to below 2^62, and the buffers have
/// room, so that no memory is taken. Each piece is a part of a block that a disk may have, zeros, or a part of what the
/// command brings, of which none is read twice where it is not known before which they are. Bytes of a vault are read
/// into `buf` first. After an error the file may be there, whole or in part, but not where a piece could not be read.
pub fn write_new_block<S: Store, G: Brings>(
    store: &mut S,
    block: &NewBlock,
    given: &mut G,
    samples: &mut [i16],
    scratch: &mut Vec<u8>,
    buf: &mut [u8],
) -> Result<(), MakeFault>
    requires block { IsBlock block.now.id block.now.len }
    requires pieces { AllReadable (G.brings given.old).count block.now.pieces }
    requires order { (G.brings given.old).tells ≡ false → AreInOrder 0 (G.brings given.old).count block.now.pieces }
    requires total { total block.now.pieces ≡ block.now.len }
    requires room { block.now.len ≤ length samples.old }
    requires buffer { 64 ≤ length buf.old }
    requires scratch { size_of block.now.len ≤ vec_capacity scratch.old }
    // The block has the samples of its pieces.
    ensures stored { IsTrue (S.tells store.old) → AllThere (S.reads store.old) block.now.pieces
        → S.reads store.old block.now.id ≡ None
        → OnOk result (IsFilled (G.brings given.old) (S.reads store.old) block.now.pieces
        (blocks (S.reads store.new) block.now.id)) }
    // A stop at any moment of the call leaves what it could leave before, but for this file. It makes one file at most,
    // and asks for no more bytes than the block's file has.
    ensures changed { Changed S.Store (SameElsewhere block.now.id) (record {
      files = 1;
      bytes = size_of block.now.len;
      calls = 1;
    }) store.old store.new }
    // Where a piece could not be read, or did not come, the disk is as it was.
    ensures untouched { IfErr result (λ e. NotPut e (Kept S.Store store.old store.new)) }
    // Where the disk has all blocks of the pieces nothing refuses but the disk and who brings samples; a fault of a file
    // is of one of them.
    ensures valid { IsTrue (S.tells store.old) → AllThere (S.reads store.old) block.now.pieces
        → IfErr result IsOfDevice }
    ensures refused { IfErr result (IsBroughtFault (G.brings given.old)) }
    ensures damaged { IsTrue (S.tells store.old)
        → IfErr result (IsFaultRead (S.reads store.old) block.now.pieces) }
    ensures faults { MadeCounted result (S.read_fault_count store.old) (S.read_fault_count store.new)
        (S.change_fault_count store.old) (S.change_fault_count store.new) }
    ensures still { StillBrings G.Brings given.old given.new }
    ensures given { MadeBrought result (G.fault_count given.old) (G.fault_count given.new) }
    ensures capacity { vec_capacity scratch.old ≤ vec_capacity scratch.new }
{
    let out = &mut samples[..block.len as usize];
    if let Err(why) = read_pieces(store, block.pieces.as_slice(), given, out, buf) {
        return Err(why);
    }
    if let Err(_) = write_block(store, block.id, out, scratch) {
        return Err(MakeFault::Put);
    }
    Ok(())
}
