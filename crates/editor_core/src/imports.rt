// A sound of a vault as new tracks.
ghost use Rattle.std.specs.Prelude.{◌≡◌, ◌⊎◌, ◌<◌, ℕ, ℤ, replicate, IsTrue, IfErr, IfOk, Option, Some, None, List};
ghost use Rattle.std.specs.Prelude.{length};
ghost use Rattle.pcm_base.specs.declared.answer.Reply.TheVariants as reply;
ghost use Rattle.pcm_base.specs.declared.command.Call.TheVariants.{Line};
ghost use Rattle.pcm_base.specs.declared.command.Command.TheVariants as command;
ghost use Rattle.pcm_base.specs.declared.entry.SoundMove.{SoundMove};
ghost use Rattle.pcm_base.specs.declared.refusal.Refusal.TheVariants as refusal;
ghost use Rattle.pcm_base.specs.declared.wav.WavFault.TheVariants.{Truncated};
ghost use Rattle.envelope_view.specs.Answers.{IsUndamaged};
ghost use Rattle.record_body.specs.Saved.{current_tracks};
ghost use Rattle.editor_state.specs.Applied.{Lasts};
ghost use Rattle.editor_core.specs.Core.{core_of};
ghost use Rattle.wav_pcm.specs.Heads.{HasShape};
ghost use Rattle.sound_import.specs.Reading.{brought_from};
ghost use Rattle.block_writer.specs.Brought.{MayBring};
ghost use Rattle.editor_state.specs.Vaults.{HasChannels, IfCutShort, IsCutShort, IsInsideOr, VaultCounted, left_as};
ghost use Rattle.editor_imports.specs.Imports.{IsChannelsPlan, channels_refusal, parts_from, total_of};
ghost use Rattle.editor_state.specs.Made.{AllInOrder};
ghost use Rattle.editor_state.specs.Studios.{IsHeld, IsStudio};
ghost use Rattle.editor_state.specs.Took.{Took, as_reply, with_sound};

use super::counts::{counts_of, length_refusal};
use super::growth::{add_channel, planned_of};
use super::studio::Studio;
use disk_model::Store;
use edit_ports::Vault;
use editor_imports::Growing;
use editor_state::Planned;
use pcm_base::{MAX_TRACKS, Refusal};
use sound_import::SoundReader;
use std::alloc::Global;
use wav_pcm::WavHead;

impl<S: Store> Studio<S> {
    /// Adds a track for each channel of a sound, in one commit. What stands before the sound's frames is read first;
    /// then each block is made of the samples that are read for it, so that a sound of any length takes no more memory
    /// than one of a few frames. The sound stays as it is.
    ///
    /// # Errors
    ///
    /// `Stopped` where a change of the disk failed in an earlier call; else `NoFile` where the vault has no such sound;
    /// else `BadWav` where its bytes are no sound that is read, also `Truncated` where the vault gives fewer of them
    /// than it said; else `RateDiffers` where it has other than the project's frames in a second; else `TrackLimit`
    /// where there would be more than 64 tracks; else `LengthLimit` where a channel has more than 2^32 samples; else
    /// `SpaceSpent` or
    /// `RecordLimit`. `VaultFault` where the vault fails: the studio goes on. `DiskFault` where the disk does: it
    /// stops.
    /// `NoMemory` may come in the place of any, and then nothing has changed.
    ///
    /// `VaultFault`, `DiskFault` and `Truncated` may come when blocks were made. Nothing names these, their ids are not
    /// given again, and a `reclaim` removes their files.
    pub fn import<V: Vault>(
        &mut self,
        alloc: Global,
        vault: &mut V,
        name: &str,
    ) -> Result<u64, Refusal>
        requires { IsStudio S.Store (core_of self.old) }
        ensures took { IsTrue (V.tells vault.old) → Took S.Store (core_of self.old)
            (with_sound (Line (command.Import name.now)) (left_as (V.holds vault.old name.now))
            (as_reply (λ _. reply.Done) result))
            (core_of self.new) }
        // Whatever the vault tells.
        ensures lasts { (sound : SoundMove) → Lasts S.Store (core_of self.old)
            (with_sound (Line (command.Import name.now)) sound (as_reply (λ _. reply.Done) result)) (core_of self.new) }
        // What is added are the tracks of some bytes, and a reason is that of some sound, or of one that is cut short.
        ensures some { IfOk result (λ n. (bytes : List ℕ) × Took S.Store (core_of self.old)
            (with_sound (Line (command.Import name.now)) (left_as (Some bytes)) (as_reply (λ _. reply.Done) result))
            (core_of self.new)) }
        ensures reason { IfErr result (λ why. IsCutShort why ⊎ ((sound : Option (List ℕ)) × Took S.Store
            (core_of self.old)
            (with_sound (Line (command.Import name.now)) (left_as sound) (as_reply (λ _. reply.Done) result))
            (core_of self.new))) }
        ensures short { (want have : ℕ)
            → IfErr result (λ why. why ≡ refusal.BadWav (Truncated want have) → have < want) }
        ensures number { IfOk result (λ n. n ≡ self.new.commit_number) }
        ensures valid { IsHeld S.Store (core_of self.old) → IfErr result IsUndamaged }
        ensures same { V.holds vault.new ≡ V.holds vault.old }
        ensures tells { V.tells vault.new ≡ V.tells vault.old }
        ensures faults { VaultCounted result (V.fault_count vault.old) (V.fault_count vault.new) }
    {
        if let Some(faults) = self.stopped {
            return Err(Refusal::Stopped { faults });
        }
        let head = self.buffers.find(vault, name, self.rate)?;
        self.add_channels(alloc, vault, name, head)
    }

    // Adds a track for each channel of a sound whose frames are where the head says, in one commit.
    fn add_channels<V: Vault>(
        &mut self,
        alloc: Global,
        vault: &mut V,
        name: &str,
        head: WavHead,
    ) -> Result<u64, Refusal>
        requires studio { IsStudio S.Store (core_of self.old) }
        requires going { self.old.stopped ≡ None }
        requires shape { HasShape head }
        requires rate { (head.rate ≡ self.old.rate) × (0 < head.rate) }
        // By some samples that may be brought they are the tracks of each sound that says these, unless fewer came than
        // were said.
        ensures took { (samples : ℕ → ℤ)
            × MayBring (brought_from (V.tells vault.old) (V.holds vault.old) name.now head) samples
            × ((sound : Option (List ℕ))
            → HasChannels sound self.old.rate (parts_from samples 0 (replicate head.channels head.frames))
            → IfCutShort result ⊎ Took S.Store (core_of self.old)
            (with_sound (Line (command.Import name.now)) (left_as sound) (as_reply (λ _. reply.Done) result))
            (core_of self.new)) }
        ensures lasts { (sound : SoundMove) → Lasts S.Store (core_of self.old)
            (with_sound (Line (command.Import name.now)) sound (as_reply (λ _. reply.Done) result)) (core_of self.new) }
        ensures device { IfErr result
            (IsInsideOr (brought_from (V.tells vault.old) (V.holds vault.old) name.now head)) }
        ensures number { IfOk result (λ n. n ≡ self.new.commit_number) }
        ensures valid { IsHeld S.Store (core_of self.old) → IfErr result IsUndamaged }
        ensures same { V.holds vault.new ≡ V.holds vault.old }
        ensures tells { V.tells vault.new ≡ V.tells vault.old }
        ensures faults { VaultCounted result (V.fault_count vault.old) (V.fault_count vault.new) }
    {
        let counts = counts_of(alloc, &head)?;
        if let Some(reason) = self.channels_refusal(counts.as_slice()) {
            return Err(reason);
        }
        let planned = self.planned_channels(alloc, counts.as_slice())?;
        let mut reader = SoundReader::new(vault, name, head);
        self.carry_out(planned, 0, 0, &mut reader)
    }

    // What refuses a track for each channel, where they have this many samples each.
    fn channels_refusal(&self, counts: &[u64]) -> Option<Refusal>
        ensures { result ≡ channels_refusal (length (current_tracks self.now.history.history)) counts.now }
    {
        if self.current().len() + counts.len() > MAX_TRACKS {
            return Some(Refusal::TrackLimit);
        }
        length_refusal(counts)
    }

    // The project with a track for each channel after those of the current one. It plans the blocks of all channels, so
    // that their number is known before a counter is asked for this many.
    fn planned_channels(&self, alloc: Global, counts: &[u64]) -> Result<Planned, Refusal>
        requires studio { IsStudio S.Store (core_of self.now) }
        requires tests { channels_refusal (length (current_tracks self.now.history.history)) counts.now ≡ None }
        ensures plan { IfOk result (IsChannelsPlan (core_of self.now) counts.now) }
        ensures clip { IfOk result (λ p. p.clip ≡ None) }
        ensures order { IfOk result (λ p. AllInOrder 0 (total_of counts.now) p.makes) }
        ensures err { IfErr result (λ e. e ≡ refusal.NoMemory) }
    {
        let mut growing = Growing {
            point: self.current().copy()?,
            makes: Vec::new(alloc),
            next: self.next_block,
            brought: 0,
            number: self.next_layout,
        };
        let mut id = self.next_track;
        'channels: for count in counts {
            add_channel(alloc, &mut growing, id, *count, self.buffers.block_size())?;
            id += 1;
        }
        Ok(planned_of(growing, counts.len() as u64))
    }
}
