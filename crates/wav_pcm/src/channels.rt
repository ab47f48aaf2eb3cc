// The samples of a channel of a WAV file of a vault, a buffer at a time.
ghost use Rattle.std.specs.Prelude.{◌≡◌, ◌≤◌, ◌<◌, ◌+◌, ◌-◌, ◌*◌, ◌/◌, ◌^◌, length, min, IsTrue, IfOk, IfErr, OnOk};
ghost use Rattle.pcm_base.specs.Wave.{channel_of};
ghost use Rattle.edit_ports.specs.Sounds.{sound_bytes};
ghost use Rattle.pcm_base.specs.declared.wav.WavFault.TheVariants as wav;
ghost use Rattle.wav_pcm.specs.declared.fault.SoundFault.TheVariants as fault;
ghost use Rattle.wav_pcm.specs.Parts.{SoundCounted, RefusalCounted, IsFor, IsShort, IsVaultAlone};
ghost use Rattle.wav_pcm.specs.Heads.{HasShape, IsHeadOf, IsChannelOf, IsCut, SaysChannel, bytes_of, place_of};
ghost use Rattle.wav_pcm.specs.Heads.{FitSamples};

use super::fault::SoundFault;
use super::heads::WavHead;
use super::interleaved::take_channel;
use super::parts::read_some;
use super::reading::take_mono;
use super::stereo::take_one;
use edit_ports::Vault;
use pcm_base::{Refusal, WavFault};

/// A channel of a sound: the head of its file, and the channel's number, from 0.
#[derive(Clone, Copy)]
pub struct ChannelOf {
    pub head: WavHead,
    pub c: u16,
}

/// How many bytes a number of frames has.
fn bytes_in(head: &WavHead, count: u64) -> u64
    requires shape { HasShape head.now }
    requires within { count ≤ head.now.frames }
    ensures value { result ≡ bytes_of head.now count }
    ensures bound { head.now.at + result < 2 ^ 64 }
{
    2 * u64::from(head.channels) * count
}

/// The place of a frame.
fn place(head: &WavHead, from: u64) -> u64
    requires shape { HasShape head.now }
    requires within { from ≤ head.now.frames }
    ensures { result ≡ place_of head.now from }
{
    head.at + bytes_in(head, from)
}

/// The samples of channel `c` of `n`, from frames.
fn take_samples(body: &[u8], n: usize, c: usize, out: &mut [i16])
    requires few { n ≤ 8 }
    requires within { c < n }
    requires size { length out.old ≡ length body.now / (2 * n) }
    ensures value { out.new ≡ channel_of n body.now c }
    ensures fit { FitSamples out.new }
{
    // As in `read`, one channel and two are read by faster ways than any number.
    match n {
        1 => take_mono(body, out),
        2 => take_one(body, c, out),
        _ => take_channel(body, n, c, out),
    }
}

/// Reads samples of a channel whose frames fit into `buf`, and answers how many of the bytes are there.
fn read_buffer<V: Vault>(
    vault: &mut V,
    name: &str,
    of: ChannelOf,
    from: u64,
    buf: &mut [u8],
    out: &mut [i16],
) -> Result<u64, SoundFault>
    requires shape { HasShape of.head }
    requires channel { of.c < of.head.channels }
    requires within { from + length out.old ≤ of.head.frames }
    requires room { bytes_of of.head (length out.old) ≤ length buf.old }
    ensures read { IsTrue (V.tells vault.old) → IfOk result (λ have. have ≡ bytes_of of.head (length out.old)
        → IsChannelOf of.head from (sound_bytes (V.holds vault.old name.now)) of.c out.new) }
    ensures count { IsTrue (V.tells vault.old) → IfOk result (λ have. have ≡ min (bytes_of of.head (length out.old))
        (length (sound_bytes (V.holds vault.old name.now)) - place_of of.head from)) }
    ensures within { IfOk result (λ have. have ≤ bytes_of of.head (length out.old)) }
    ensures fit { IfOk result (λ have. have ≡ bytes_of of.head (length out.old) → FitSamples out.new) }
    ensures failed { IfErr result (λ why. why ≡ fault.Vault) }
    ensures same { V.holds vault.new ≡ V.holds vault.old }
    ensures tells { V.tells vault.new ≡ V.tells vault.old }
    ensures faults { SoundCounted result (V.fault_count vault.old) (V.fault_count vault.new) }
{
    let ChannelOf { head, c } = of;
    let size = bytes_in(&head, out.len() as u64);
    let buffer = &mut buf[..size as usize];
    match read_some(vault, name, place(&head, from), buffer) {
        Ok(have) => {
            let have = have as u64;
            if have == size {
                take_samples(buffer, usize::from(head.channels), usize::from(c), out);
            }
            Ok(have)
        }
        Err(why) => Err(why),
    }
}

/// The fault where fewer of the bytes of `all` frames are there: those of the first `done`, and `have` more.
fn cut(head: &WavHead, all: u64, done: u64, have: u64) -> SoundFault
    requires shape { HasShape head.now }
    requires within { all ≤ head.now.frames }
    requires some { bytes_of head.now done + have < bytes_of head.now all }
    ensures value { result ≡ fault.BadWav (wav.Truncated (bytes_of head.now all) (bytes_of head.now done + have)) }
    ensures short { IsShort result }
{
    SoundFault::from(WavFault::Truncated {
        want: bytes_in(head, all),
        have: bytes_in(head, done) + have,
    })
}

/// How many frames fit into a number of bytes.
fn frames_in(head: &WavHead, room: usize) -> usize
    requires shape { HasShape head.now }
    requires room { 64 ≤ room }
    ensures some { 0 < result }
    ensures fit { bytes_of head.now result ≤ room }
{
    room / (2 * usize::from(head.channels))
}

/// As [`channel`], with a reason of this crate.
pub fn read_channel<V: Vault>(
    vault: &mut V,
    name: &str,
    of: ChannelOf,
    from: u64,
    buf: &mut [u8],
    out: &mut [i16],
) -> Result<(), SoundFault>
    requires room { 64 ≤ length buf.old }
    requires shape { HasShape of.head }
    requires channel { of.c < of.head.channels }
    requires within { from + length out.old ≤ of.head.frames }
    ensures read { IsTrue (V.tells vault.old) → OnOk result (IsChannelOf of.head from
        (sound_bytes (V.holds vault.old name.now)) of.c out.new) }
    ensures refused { IsTrue (V.tells vault.old) → IfErr result (IsCut of.head from (length out.old)
        (sound_bytes (V.holds vault.old name.now))) }
    ensures fit { OnOk result (FitSamples out.new) }
    ensures short { IfErr result IsShort }
    ensures same { V.holds vault.new ≡ V.holds vault.old }
    ensures tells { V.tells vault.new ≡ V.tells vault.old }
    ensures faults { SoundCounted result (V.fault_count vault.old) (V.fault_count vault.new) }
{
    let head = of.head;
    let room = frames_in(&head, buf.len());
    let all = out.len();
    let mut done = 0;
    'buffers: while done < all {
        let count = room.min(all - done);
        let part = &mut out[done..done + count];
        let have = match read_buffer(vault, name, of, from + done as u64, buf, part) {
            Ok(have) => have,
            Err(why) => return Err(why),
        };
        if have < bytes_in(&head, count as u64) {
            return Err(cut(&head, all as u64, done as u64, have));
        }
        done += count;
    }
    Ok(())
}

/// Reads samples of a channel of a WAV file of a vault into `out`, from frame `from` on, as many as it has places for.
/// `buf` has at least 64 bytes. The head says where the samples are. The bytes are read into `buf` a buffer at a time,
/// and where the sound has fewer of the bytes asked for, it is Truncated, for every length of `buf` with the same two
/// numbers. It takes no memory. Errors: BadWav with Truncated, and VaultFault. After an error
/// `out` may hold anything.
pub fn channel<V: Vault>(
    vault: &mut V,
    name: &str,
    of: ChannelOf,
    from: u64,
    buf: &mut [u8],
    out: &mut [i16],
) -> Result<(), Refusal>
    requires room { 64 ≤ length buf.old }
    requires shape { HasShape of.head }
    requires channel { of.c < of.head.channels }
    requires within { from + length out.old ≤ of.head.frames }
    ensures read { IsTrue (V.tells vault.old) → OnOk result (IsChannelOf of.head from
        (sound_bytes (V.holds vault.old name.now)) of.c out.new) }
    ensures refused { IsTrue (V.tells vault.old) → IfErr result (IsFor (IsCut of.head from (length out.old)
        (sound_bytes (V.holds vault.old name.now)))) }
    // Where the head is that of the sound, no byte is lacking, and these are the samples that its bytes say.
    ensures valid { IsTrue (V.tells vault.old) → IsHeadOf (V.holds vault.old name.now) of.head
        → OnOk result (SaysChannel (V.holds vault.old name.now) of.c from out.new) }
    ensures whole { IsTrue (V.tells vault.old) → IsHeadOf (V.holds vault.old name.now) of.head
        → IfErr result (IsFor IsVaultAlone) }
    // Whatever the vault tells: fewer bytes came than were asked for.
    ensures short { IfErr result (IsFor IsShort) }
    ensures same { V.holds vault.new ≡ V.holds vault.old }
    ensures tells { V.tells vault.new ≡ V.tells vault.old }
    ensures faults { RefusalCounted result (V.fault_count vault.old) (V.fault_count vault.new) }
{
    match read_channel(vault, name, of, from, buf, out) {
        Ok(()) => Ok(()),
        Err(why) => Err(Refusal::from(why)),
    }
}
