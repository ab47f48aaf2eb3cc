// Frames of a mix, appended to a sound a stretch at a time.
ghost use Rattle.std.specs.Prelude.{◌≡◌, ◌≤◌, ◌<◌, ◌+◌, ◌-◌, ◌*◌, ◌^◌, ◌++◌, ℕ, length, take, drop, min, Some, IsTrue};
ghost use Rattle.std.specs.Prelude.{OnOk, OnErr, IfOk, IfErr};
ghost use Rattle.pcm_base.specs.Outside.{SameElsewhere};
ghost use Rattle.edit_ports.specs.Sounds.{sound_bytes, MayHaveGrown};
ghost use Rattle.project_state.specs.Meaning.{point_blocks};
ghost use Rattle.sample_block.specs.Sources.{AllNamed};
ghost use Rattle.block_cache.specs.Readers.{Hits, Reads};
ghost use Rattle.mix_reader.specs.Heard.{HasHeard};
ghost use Rattle.mix_reader.specs.Readers.{IsReader};
ghost use Rattle.mix_reader.specs.Tracks.{mix_length_of, stored_mix};
ghost use Rattle.pcm_base.specs.Recordings.{frame_bytes};
ghost use Rattle.wav_pcm.specs.Written.{IsThere};
ghost use Rattle.sound_export.specs.declared.buffers.TheConstants.{MIX_FRAMES};
ghost use Rattle.sound_export.specs.Written.{ExportCounted, IsOfDevice, disk_part};

use super::buffers::MixBuffers;
use super::fault::ExportFault;
use block_cache::BlockReader;
use disk_model::Store;
use edit_ports::Vault;
use mix_reader::{MixReader, mix_len};
use project_state::Point;
use wav_pcm::append_frames;

/// Appends the next frames of a mix to a sound that is there, as many as are left and as there is room for, and
/// answers how many.
fn append_stretch<'a, S: Store, V: Vault>(
    reader: &mut BlockReader<S>,
    vault: &mut V,
    name: &str,
    mix: &mut MixReader<'a>,
    buffers: &mut MixBuffers,
    bytes: &mut [u8],
) -> Result<usize, ExportFault>
    requires reader { IsReader mix.old }
    requires bytes { 64 ≤ length bytes.old }
    requires left { mix.old.at ≤ mix_length_of mix.old.point.now }
    requires few { mix.old.at + MIX_FRAMES < 2 ^ 64 }
    ensures count { IfOk result (λ n. n ≡ min MIX_FRAMES (mix_length_of mix.old.point.now - mix.old.at)) }
    ensures place { IfOk result (λ n. mix.new.at ≡ mix.old.at + n) }
    ensures reader { IsReader mix.new }
    ensures point { mix.new.point.now ≡ mix.old.point.now }
    ensures reads { Reads (point_blocks mix.old.point.now) reader.old reader.new (disk_part result) }
    ensures hit { Hits (HasHeard reader.old.cache mix.old.at (mix_length_of mix.old.point.now) mix.old.point.now)
        reader.old reader.new (disk_part result) }
    ensures appended { IsTrue (V.tells vault.old) → IsTrue (S.tells reader.old.store)
        → IsThere (V.holds vault.old name.now)
        → IfOk result (λ n. V.holds vault.new name.now ≡ Some (sound_bytes (V.holds vault.old name.now)
        ++ frame_bytes (take n (drop mix.old.at (stored_mix (S.reads reader.old.store) mix.old.point.now))))) }
    ensures failed { IsTrue (V.tells vault.old) → IsTrue (S.tells reader.old.store)
        → IsThere (V.holds vault.old name.now)
        → OnErr result ((n : ℕ)
        × MayHaveGrown (frame_bytes (take n (drop mix.old.at
        (stored_mix (S.reads reader.old.store) mix.old.point.now))))
        (V.holds vault.old name.now) (V.holds vault.new name.now)) }
    ensures others { IsTrue (V.tells vault.old) → SameElsewhere name.now (V.holds vault.old) (V.holds vault.new) }
    ensures tells { V.tells vault.new ≡ V.tells vault.old }
    ensures device { IfErr result (λ e. IsOfDevice e) }
    ensures faults { ExportCounted result (V.fault_count vault.old) (V.fault_count vault.new) }
{
    let MixBuffers { samples, frames } = buffers;
    let count = mix.read(reader, samples, frames)?;
    if let Err(_) = append_frames(vault, name, &frames[..count], bytes) {
        return Err(ExportFault::VaultFault);
    }
    Ok(count)
}

/// Appends all frames of the mix to a sound that is there, in one pass over the tracks.
pub(crate) fn append_mix<S: Store, V: Vault>(
    reader: &mut BlockReader<S>,
    vault: &mut V,
    name: &str,
    point: &Point,
    buffers: &mut MixBuffers,
    bytes: &mut [u8],
) -> Result<(), ExportFault>
    requires named { AllNamed (point_blocks point.now) }
    requires there { IsTrue (V.tells vault.old)
        → V.holds vault.old name.now ≡ Some (sound_bytes (V.holds vault.old name.now)) }
    requires bytes { 64 ≤ length bytes.old }
    ensures reads { Reads (point_blocks point.now) reader.old reader.new (disk_part result) }
    ensures hit { Hits (HasHeard reader.old.cache 0 (mix_length_of point.now) point.now) reader.old reader.new
        (disk_part result) }
    ensures appended { IsTrue (V.tells vault.old) → IsTrue (S.tells reader.old.store)
        → OnOk result (V.holds vault.new name.now ≡ Some (sound_bytes (V.holds vault.old name.now)
        ++ frame_bytes (stored_mix (S.reads reader.old.store) point.now))) }
    ensures failed { IsTrue (V.tells vault.old) → IsTrue (S.tells reader.old.store)
        → OnErr result (MayHaveGrown (frame_bytes (stored_mix (S.reads reader.old.store) point.now))
        (V.holds vault.old name.now) (V.holds vault.new name.now)) }
    ensures others { IsTrue (V.tells vault.old) → SameElsewhere name.now (V.holds vault.old) (V.holds vault.new) }
    ensures tells { V.tells vault.new ≡ V.tells vault.old }
    ensures device { IfErr result (λ e. IsOfDevice e) }
    ensures faults { ExportCounted result (V.fault_count vault.old) (V.fault_count vault.new) }
{
    let len = mix_len(point);
    let mut mix = MixReader::new(point, 0);
    'stretches: while mix.at < len {
        if let Err(fault) = append_stretch(reader, vault, name, &mut mix, buffers, bytes) {
            return Err(fault);
        }
    }
    Ok(())
}
