// A mix is written to a vault.
ghost use Rattle.std.specs.Prelude.{◌≡◌, ◌≤◌, ◌<◌, ◌+◌, ◌*◌, length, Some, Err, IsTrue, OnOk, OnErr, IfOk, IfErr};
ghost use Rattle.pcm_base.specs.Mix.{mix_of};
ghost use Rattle.pcm_base.specs.Wave.{wav_text};
ghost use Rattle.pcm_base.specs.Outside.{SameElsewhere};
ghost use Rattle.project_state.specs.Meaning.{meant, point_blocks};
ghost use Rattle.sample_block.specs.Sources.{sources_of, AllNamed, AllWhole};
ghost use Rattle.wav_pcm.specs.Written.{MayBegin};
ghost use Rattle.block_cache.specs.Readers.{Hits, Reads};
ghost use Rattle.mix_reader.specs.Heard.{HasHeard};
ghost use Rattle.mix_reader.specs.Tracks.{mix_length_of, stored_mix};
ghost use Rattle.sound_export.specs.declared.fault.ExportFault.TheVariants as fault;
ghost use Rattle.sound_export.specs.Written.{ExportCounted, IsLengthFault, IsNoDamage, disk_part};

use super::buffers::MixBuffers;
use super::fault::{ExportFault, start_fault};
use super::stretch::append_mix;
use block_cache::BlockReader;
use disk_model::Store;
use edit_ports::Vault;
use mix_reader::mix_len;
use project_state::Point;
use wav_pcm::start_wav;

/// Writes the mix of a point's tracks to a vault as a WAV file, and answers how many bytes it has. The length is tested
/// before anything is written. Then the header is written, and frames are read, mixed and appended a stretch at a
/// time, as many as `buffers` has room for. Their bytes are written by `bytes`. After an error the sound is as it was,
/// or holds the first bytes of the file.
pub fn write_mix<S: Store, V: Vault>(
    reader: &mut BlockReader<S>,
    vault: &mut V,
    name: &str,
    point: &Point,
    rate: u32,
    buffers: &mut MixBuffers,
    bytes: &mut [u8],
) -> Result<u64, ExportFault>
    requires named { AllNamed (point_blocks point.now) }
    requires bytes { 64 ≤ length bytes.old }
    ensures reads { Reads (point_blocks point.now) reader.old reader.new (disk_part result) }
    // Where the cache has all pages of the tracks that are heard, the disk refuses nothing and is asked nothing.
    ensures hit { Hits (HasHeard reader.old.cache 0 (mix_length_of point.now) point.now) reader.old reader.new
        (disk_part result) }
    ensures written { IsTrue (V.tells vault.old) → IsTrue (S.tells reader.old.store) → OnOk result
        (V.holds vault.new name.now ≡ Some (wav_text (stored_mix (S.reads reader.old.store) point.now) rate)) }
    ensures size { IfOk result (λ n. n ≡ 44 + 4 * mix_length_of point.now) }
    // Whatever failed, a file too, the sound is as it was or the front of that text.
    ensures failed { IsTrue (V.tells vault.old) → IsTrue (S.tells reader.old.store)
        → OnErr result (MayBegin (wav_text (stored_mix (S.reads reader.old.store) point.now) rate)
        (V.holds vault.old name.now) (V.holds vault.new name.now)) }
    // Where the disk has all blocks this is the mix of the model, and no file is at fault.
    ensures whole { AllWhole (S.reads reader.old.store) (point_blocks point.now)
        → stored_mix (S.reads reader.old.store) point.now
        ≡ mix_of (meant (sources_of (S.reads reader.old.store)) point.now) }
    ensures valid { IsTrue (S.tells reader.old.store) → AllWhole (S.reads reader.old.store) (point_blocks point.now)
        → IfErr result (λ e. IsNoDamage e) }
    ensures too_long { 4294967295 < 36 + 4 * mix_length_of point.now
        → (result ≡ Err (fault.TooLong (mix_length_of point.now))) × (vault.new ≡ vault.old)
        × (reader.new.store ≡ reader.old.store) }
    ensures long { IfErr result (λ e. IsLengthFault (mix_length_of point.now) e) }
    ensures others { IsTrue (V.tells vault.old) → SameElsewhere name.now (V.holds vault.old) (V.holds vault.new) }
    ensures tells { V.tells vault.new ≡ V.tells vault.old }
    ensures faults { ExportCounted result (V.fault_count vault.old) (V.fault_count vault.new) }
{
    let len = mix_len(point);
    if let Err(why) = start_wav(vault, name, len, rate, bytes) {
        return Err(start_fault(why));
    }
    append_mix(reader, vault, name, point, buffers, bytes)?;
    Ok(44 + 4 * len)
}
