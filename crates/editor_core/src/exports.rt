// The mix of the current project as a sound of a vault.
ghost use Rattle.std.specs.Prelude.{◌≡◌, ◌⊎◌, ◌≤◌, ◌+◌, ◌*◌, ℕ, None, length, IsTrue, IfErr, IfOk, MatchResult};
ghost use Rattle.pcm_base.specs.declared.answer.Reply.TheVariants as reply;
ghost use Rattle.pcm_base.specs.declared.command.Call.TheVariants.{Line};
ghost use Rattle.pcm_base.specs.declared.command.Command.TheVariants as command;
ghost use Rattle.pcm_base.specs.declared.entry.SoundMove.{SoundMove};
ghost use Rattle.pcm_base.specs.Mix.{mix_of};
ghost use Rattle.pcm_base.specs.Outside.{SameElsewhere};
ghost use Rattle.pcm_base.specs.Wave.{wav_text};
ghost use Rattle.disk_model.specs.Frames.{Kept};
ghost use Rattle.sample_block.specs.Sources.{sources_of, AllNamed, AllWhole};
ghost use Rattle.block_cache.specs.Caches.{SameCache};
ghost use Rattle.block_cache.specs.Readers.{Hits, Reads};
ghost use Rattle.mix_reader.specs.Heard.{HasHeard};
ghost use Rattle.record_body.specs.Saved.{current_tracks};
ghost use Rattle.pcm_base.specs.declared.refusal.Refusal.TheVariants.{TooLong, VaultFault};
ghost use Rattle.project_state.specs.Meaning.{meant, point_blocks};
ghost use Rattle.wav_pcm.specs.Wavs.{FitsFile};
ghost use Rattle.mix_reader.specs.Tracks.{mix_length_of};
ghost use Rattle.sound_export.specs.Written.{ExportCounted, IsLengthFault, IsNoDamage, IsOfDevice, disk_part};
ghost use Rattle.envelope_view.specs.Answers.{IsUndamaged};
ghost use Rattle.editor_state.specs.Adding.{IsNoWant};
ghost use Rattle.editor_state.specs.Applied.{Lasts};
ghost use Rattle.editor_core.specs.Core.{core_of};
ghost use Rattle.editor_state.specs.Exports.{Writes, moved_from};
ghost use Rattle.editor_state.specs.Vaults.{VaultCounted};
ghost use Rattle.editor_state.specs.Studios.{IsHeld, IsStudio};
ghost use Rattle.editor_state.specs.Took.{Took, as_reply, with_sound};

use super::current::current_of;
use super::studio::Studio;
use block_cache::BlockReader;
use disk_model::Store;
use edit_ports::Vault;
use pcm_base::Refusal;
use project_state::Point;
use sound_export::{ExportFault, MixBuffers, write_mix};

// Writes the mix of a project in stretches, whose bytes are written by `bytes`, and answers how many bytes the sound has.
pub(crate) fn write_stretches<S: Store, V: Vault>(
    reader: &mut BlockReader<S>,
    vault: &mut V,
    name: &str,
    point: &Point,
    rate: u32,
    bytes: &mut [u8],
) -> Result<u64, ExportFault>
    requires named { AllNamed (point_blocks point.now) }
    requires bytes { 64 ≤ length bytes.old }
    ensures reads { Reads (point_blocks point.now) reader.old reader.new (disk_part result) }
    ensures hit { Hits (HasHeard reader.old.cache 0 (mix_length_of point.now) point.now) reader.old reader.new
        (disk_part result) }
    ensures written { IsTrue (V.tells vault.old) → IsTrue (S.tells reader.old.store)
        → AllWhole (S.reads reader.old.store) (point_blocks point.now)
        → Writes (wav_text (mix_of (meant (sources_of (S.reads reader.old.store)) point.now)) rate)
        (V.holds vault.old name.now) (V.holds vault.new name.now) result }
    ensures len { IfOk result (λ n. n ≡ 44 + 4 * mix_length_of point.now) }
    ensures fits { MatchResult result (λ n. FitsFile (mix_length_of point.now))
        (IsLengthFault (mix_length_of point.now)) }
    ensures untouched { IsTrue (V.tells vault.old) → IfErr result (λ e. IsOfDevice e
        ⊎ (V.holds vault.new name.now ≡ V.holds vault.old name.now)) }
    ensures valid { IsTrue (S.tells reader.old.store) → AllWhole (S.reads reader.old.store) (point_blocks point.now)
        → IfErr result IsNoDamage }
    ensures others { IsTrue (V.tells vault.old) → SameElsewhere name.now (V.holds vault.old) (V.holds vault.new) }
    ensures tells { V.tells vault.new ≡ V.tells vault.old }
    ensures faults { ExportCounted result (V.fault_count vault.old) (V.fault_count vault.new) }
{
    let mut buffers = MixBuffers::new();
    write_mix(reader, vault, name, point, rate, &mut buffers, bytes)
}

impl<S: Store> Studio<S> {
    /// Writes the mix of the current project to a vault as a WAV file of two channels, and answers how many bytes it
    /// has. The length is tested before the sound is touched; then the header is written, and stretches of 16,384 frames
    /// are read, mixed and appended, each by one call. Samples and frames stand on the stack, in 192 KiB, and their bytes
    /// in a buffer that the studio has. Nothing of the studio and its disk changes but the pages that are kept, which take
    /// memory only where there is some.
    ///
    /// # Errors
    ///
    /// `Stopped` where a change of the disk failed in an earlier call; else `TooLong` where the sizes in the file would
    /// pass 32 bits, and then the sound is as it was. `DiskFault` where a read fails, `VaultFault` where the vault
    /// does: the studio goes on, and the sound is as it was or holds the first bytes of the file. A disk that holds
    /// what the studio stands for shows no damaged file.
    pub fn export<V: Vault>(&mut self, vault: &mut V, name: &str) -> Result<u64, Refusal>
        requires { IsStudio S.Store (core_of self.old) }
        ensures took { IsTrue (V.tells vault.old) → Took S.Store (core_of self.old)
            (with_sound (Line (command.Export name.now))
            (moved_from (V.holds vault.old name.now) (V.holds vault.new name.now)) (as_reply reply.Wrote result))
            (core_of self.new) }
        // Whatever the vault tells, nothing of the studio and its disk changes but the pages that are kept.
        ensures lasts { (sound : SoundMove) → Lasts S.Store (core_of self.old)
            (with_sound (Line (command.Export name.now)) sound (as_reply reply.Wrote result)) (core_of self.new) }
        ensures same { core_of self.new ≡ record (core_of self.old) {
          store = self.new.reader.store;
          cache = self.new.reader.cache;
        } }
        ensures kept { Kept S.Store self.old.reader.store self.new.reader.store }
        ensures valid { IsHeld S.Store (core_of self.old) → IfErr result IsUndamaged }
        ensures memory { IfErr result IsNoWant }
        // Where the cache has all pages of the tracks that are heard, the disk refuses nothing, whatever the store would
        // answer, and is asked nothing.
        ensures hit { self.old.stopped ≡ None
            → HasHeard self.old.reader.cache 0 (mix_length_of (current_tracks self.old.history.history))
            (current_tracks self.old.history.history)
            → IfErr result (λ why. (why ≡ VaultFault) ⊎ ((frames : ℕ) × (why ≡ TooLong frames)))
            × (self.new.reader.store ≡ self.old.reader.store) × SameCache self.old.reader.cache self.new.reader.cache }
        ensures others { IsTrue (V.tells vault.old) → SameElsewhere name.now (V.holds vault.old) (V.holds vault.new) }
        ensures tells { V.tells vault.new ≡ V.tells vault.old }
        ensures faults { VaultCounted result (V.fault_count vault.old) (V.fault_count vault.new) }
    {
        if let Some(faults) = self.stopped {
            return Err(Refusal::Stopped { faults });
        }
        let point = current_of(&self.history);
        let bytes = self
            .buffers
            .write_sound(&mut self.reader, vault, name, point, self.rate)?;
        Ok(bytes)
    }
}
