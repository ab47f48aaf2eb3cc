// What a block is made in, and bytes of sounds are read and written by.
ghost use Rattle.std.specs.Prelude.{◌≡◌, ◌⊎◌, ◌≤◌, ◌<◌, ◌+◌, ◌*◌, ℕ, IfOk, IfErr, IsOkUnless, IsTrue, OnOk, Option};
ghost use Rattle.std.specs.Prelude.{None};
ghost use Rattle.std.specs.Prelude.{List, false, MatchResult};
ghost use Rattle.pcm_base.specs.declared.limits.TheConstants.{MAX_BLOCK_SAMPLES};
ghost use Rattle.block_store.specs.Checks.{Checks, IsWhole};
ghost use Rattle.block_store.specs.Reads.{Counted};
ghost use Rattle.block_store.specs.declared.fault.BlockFault.TheVariants as fault;
ghost use Rattle.pcm_base.specs.Pieces.{total};
ghost use Rattle.pcm_base.specs.declared.wav.WavFault.TheVariants.{Truncated};
ghost use Rattle.pcm_base.specs.Mix.{mix_of};
ghost use Rattle.pcm_base.specs.Outside as outside;
ghost use Rattle.pcm_base.specs.Wave.{wav_text};
ghost use Rattle.disk_model.specs.Disk.{SameElsewhere, bytes_of};
ghost use Rattle.disk_model.specs.Frames.{Kept, Changed};
ghost use Rattle.sample_block.specs.Blocks.{blocks};
ghost use Rattle.sample_block.specs.Faults.{damage_of};
ghost use Rattle.sample_block.specs.Sources.{sources_of, AllNamed, AllWhole};
ghost use Rattle.sample_block.specs.Spelling.{IsBlock, size_of};
ghost use Rattle.block_cache.specs.Caches.{AllPass};
ghost use Rattle.block_cache.specs.Readers.{Hits, Reads};
ghost use Rattle.mix_reader.specs.Heard.{HasHeard};
ghost use Rattle.project_state.specs.Meaning.{meant, point_blocks};
ghost use Rattle.mix_reader.specs.Tracks.{mix_length_of};
ghost use Rattle.block_writer.specs.Brought.{AreInOrder};
ghost use Rattle.block_writer.specs.Bringers.{StillBrings};
ghost use Rattle.block_writer.specs.Making.{IsFilled, IsOfDevice, IsFaultRead, IsBroughtFault, NotPut, MadeCounted};
ghost use Rattle.block_writer.specs.Making.{MadeBrought};
ghost use Rattle.block_writer.specs.Reading.{AllReadable, AllThere};
ghost use Rattle.wav_pcm.specs.Heads.{HasShape, IsHeadOf};
ghost use Rattle.wav_pcm.specs.Wavs.{FitsFile};
ghost use Rattle.wav_pcm.specs.declared.fault.SoundFault.TheVariants.{BadWav};
ghost use Rattle.sound_import.specs.declared.fault.ImportFault.TheVariants as import;
ghost use Rattle.sound_import.specs.Imported.{IsRefused, IsCutShort, ImportCounted};
ghost use Rattle.sound_export.specs.Written as export;
ghost use Rattle.sound_export.specs.Written.{ExportCounted, IsLengthFault, IsNoDamage, disk_part};
ghost use Rattle.editor_core.specs.Buffers.{IsRoomy};
ghost use Rattle.editor_state.specs.Exports.{Writes};
ghost use Rattle.editor_state.specs.Given.{is_given};

use super::exports::write_stretches;
use block_cache::BlockReader;
use block_store::{BlockFault, check_block};
use block_writer::{Brings, MakeFault, write_new_block};
use disk_model::Store;
use edit_ops::NewBlock;
use edit_ports::Vault;
use pcm_base::{BlockRef, NoMemory};
use project_state::Point;
use sample_block::file_size;
use sound_export::ExportFault;
use sound_import::{ImportFault, find_sound};
use std::alloc::Global;
use std::marker::Model;
use wav_pcm::WavHead;

// How many bytes of a sound are read or written at a time.
const SOUND_BYTES: usize = 65_536;

/// Room for the samples of one block and for the bytes of its file, so that no block that is made takes memory, and for
/// 65,536 bytes of a sound. Contracts see the most samples that a block may have.
#[derive(Drop)]
pub(crate) struct BlockBuffers {
    block_size: u32,
    samples: Vec<i16>,
    file: Vec<u8>,
    sound: Vec<u8>,
}

impl Model for BlockBuffers {
    ghost use Rattle.std.specs.Prelude.{ℕ, length, vec_capacity};
    ghost use Rattle.editor_core.specs.Buffers.{IsRoomy};

    ghost Value = { ℕ };

    ghost view = { λ b. b.block_size };

    ghost invariant = { λ b. IsRoomy b.block_size (length b.samples.items) (vec_capacity b.file)
        (length b.sound.items) };
}

impl BlockBuffers {
    // Room for blocks of this many samples, at most 262,144.
    pub(crate) fn new(alloc: Global, block_size: u32) -> Result<BlockBuffers, NoMemory>
        requires { block_size ≤ MAX_BLOCK_SAMPLES }
        ensures { IfOk result (λ b. b ≡ block_size) }
    {
        let samples = vec![in alloc; 0i16; block_size as usize]?;
        let file = Vec::with_capacity(alloc, file_size(block_size as usize))?;
        let sound = vec![in alloc; 0u8; SOUND_BYTES]?;
        Ok(BlockBuffers {
            block_size,
            samples,
            file,
            sound,
        })
    }

    // The most samples of a block.
    pub(crate) fn block_size(&self) -> u32
        ensures value { result ≡ self.now }
        ensures few { result ≤ MAX_BLOCK_SAMPLES }
    {
        self.block_size
    }

    // As `write_new_block`, in these buffers. It takes no memory.
    pub(crate) fn write_new<S: Store, G: Brings>(
        &mut self,
        reader: &mut BlockReader<S>,
        block: &NewBlock,
        given: &mut G,
    ) -> Result<(), MakeFault>
        requires block { IsBlock block.now.id block.now.len }
        requires pieces { AllReadable (G.brings given.old).count block.now.pieces }
        requires order { (G.brings given.old).tells ≡ false
            → AreInOrder 0 (G.brings given.old).count block.now.pieces }
        requires total { total block.now.pieces ≡ block.now.len }
        requires room { block.now.len ≤ self.old }
        // No page is of a block of this number or above.
        requires pages { AllPass (is_given block.now.id) reader.old.cache }
        ensures pages { reader.new.cache ≡ reader.old.cache }
        ensures stored { IsTrue (S.tells reader.old.store) → AllThere (S.reads reader.old.store) block.now.pieces
            → S.reads reader.old.store block.now.id ≡ None
            → OnOk result (IsFilled (G.brings given.old) (S.reads reader.old.store) block.now.pieces
            (blocks (S.reads reader.new.store) block.now.id)) }
        ensures changed { Changed S.Store (SameElsewhere block.now.id) (record {
          files = 1;
          bytes = size_of block.now.len;
          calls = 1;
        }) reader.old.store reader.new.store }
        ensures untouched { IfErr result (λ e. NotPut e (Kept S.Store reader.old.store reader.new.store)) }
        ensures valid { IsTrue (S.tells reader.old.store) → AllThere (S.reads reader.old.store) block.now.pieces
            → IfErr result IsOfDevice }
        ensures refused { IfErr result (IsBroughtFault (G.brings given.old)) }
        ensures damaged { IsTrue (S.tells reader.old.store)
            → IfErr result (IsFaultRead (S.reads reader.old.store) block.now.pieces) }
        ensures faults { MadeCounted result
            (S.read_fault_count reader.old.store) (S.read_fault_count reader.new.store)
            (S.change_fault_count reader.old.store) (S.change_fault_count reader.new.store) }
        ensures still { StillBrings G.Brings given.old given.new }
        ensures given { MadeBrought result (G.fault_count given.old) (G.fault_count given.new) }
        ensures same { self.new ≡ self.old }
    {
        write_new_block(
            &mut reader.store,
            block,
            given,
            &mut self.samples,
            &mut self.file,
            &mut self.sound,
        )
    }

    // As `find_sound`, by the buffer for sounds. It takes no memory.
    pub(crate) fn find<V: Vault>(
        &mut self,
        vault: &mut V,
        name: &str,
        rate: u32,
    ) -> Result<WavHead, ImportFault>
        ensures found { IsTrue (V.tells vault.old) → IfOk result (IsHeadOf (V.holds vault.old name.now)) }
        ensures rate { IfOk result (λ head. head.rate ≡ rate) }
        ensures some { IfOk result (λ head. 0 < head.rate) }
        ensures shape { IfOk result HasShape }
        ensures refused { IsTrue (V.tells vault.old) → IfErr result (IsRefused (V.holds vault.old name.now) rate) }
        ensures reason { IfErr result
            (λ why. IsCutShort why ⊎ ((sound : Option (List ℕ)) × IsRefused sound rate why)) }
        ensures short { (want have : ℕ)
            → IfErr result (λ why. why ≡ import.Sound (BadWav (Truncated want have)) → have < want) }
        ensures held { V.holds vault.new ≡ V.holds vault.old }
        ensures tells { V.tells vault.new ≡ V.tells vault.old }
        ensures faults { ImportCounted result (V.fault_count vault.old) (V.fault_count vault.new) }
        ensures same { self.new ≡ self.old }
    {
        find_sound(vault, name, rate, &mut self.sound)
    }

    // As `write_stretches`, by the buffer for sounds. It takes no memory.
    pub(crate) fn write_sound<S: Store, V: Vault>(
        &mut self,
        reader: &mut BlockReader<S>,
        vault: &mut V,
        name: &str,
        point: &Point,
        rate: u32,
    ) -> Result<u64, ExportFault>
        requires named { AllNamed (point_blocks point.now) }
        ensures reads { Reads (point_blocks point.now) reader.old reader.new (disk_part result) }
        ensures hit { Hits (HasHeard reader.old.cache 0 (mix_length_of point.now) point.now) reader.old reader.new
            (disk_part result) }
        ensures written { IsTrue (V.tells vault.old) → IsTrue (S.tells reader.old.store)
            → AllWhole (S.reads reader.old.store) (point_blocks point.now)
            → Writes (wav_text (mix_of (meant (sources_of (S.reads reader.old.store)) point.now)) rate)
            (V.holds vault.old name.now) (V.holds vault.new name.now) result }
        ensures len { IfOk result (λ n. n ≡ 44 + 4 * mix_length_of point.now) }
        ensures fits { MatchResult result (λ n. FitsFile (mix_length_of point.now))
            (IsLengthFault (mix_length_of point.now)) }
        ensures untouched { IsTrue (V.tells vault.old) → IfErr result (λ e. export.IsOfDevice e
            ⊎ (V.holds vault.new name.now ≡ V.holds vault.old name.now)) }
        ensures valid { IsTrue (S.tells reader.old.store) → AllWhole (S.reads reader.old.store) (point_blocks point.now)
            → IfErr result IsNoDamage }
        ensures others { IsTrue (V.tells vault.old) → outside.SameElsewhere name.now (V.holds vault.old)
            (V.holds vault.new) }
        ensures tells { V.tells vault.new ≡ V.tells vault.old }
        ensures faults { ExportCounted result (V.fault_count vault.old) (V.fault_count vault.new) }
        ensures same { self.new ≡ self.old }
    {
        write_stretches(reader, vault, name, point, rate, &mut self.sound)
    }

    // As `check_block`, in these buffers and without the pages that are kept. It takes no memory.
    pub(crate) fn check<S: Store>(
        &mut self,
        reader: &mut BlockReader<S>,
        block: BlockRef,
    ) -> Result<(), BlockFault>
        requires block { IsBlock block.id block.len }
        requires room { block.len ≤ self.old }
        ensures whole { IsTrue (S.tells reader.old.store)
            → OnOk result (IsWhole (S.reads reader.old.store) block.id block.len) }
        ensures valid { IsTrue (S.tells reader.old.store) → IsWhole (S.reads reader.old.store) block.id block.len
            → IsOkUnless result fault.DiskFault }
        ensures checked { IsTrue (S.tells reader.old.store)
            → Checks block.id (damage_of block.id block.len (bytes_of (S.reads reader.old.store block.id))) result }
        ensures kept { Kept S.Store reader.old.store reader.new.store }
        ensures faults { Counted result (S.read_fault_count reader.old.store) (S.read_fault_count reader.new.store) }
        ensures pages { reader.new.cache ≡ reader.old.cache }
        ensures same { self.new ≡ self.old }
    {
        check_block(&mut reader.store, block, &mut self.file)
    }
}
