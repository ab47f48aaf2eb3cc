// Why a line is refused: the name of the reason, and its numbers.
ghost use Rattle.script_text.specs.Gathering.{Adds, Counts};
ghost use Rattle.script_text.specs.Text.{wav_text, damage_text, reason_text};

use super::gathered::Gathered;
use super::numbers::{put_named, put_pair, put_wide};
use edit_ports::Sink;
use pcm_base::{Refusal, WavFault};

fn put_wav_fault<O: Sink>(text: &mut Gathered, out: &mut O, fault: &WavFault)
    ensures bytes { Adds text.old (O.written out.old) text.new (O.written out.new) (wav_text fault.now) }
    ensures cause { Counts text.old (O.fault_count out.old) text.new (O.fault_count out.new) }
{
    match fault {
        WavFault::NotRiff => text.put(out, b"NotRiff"),
        WavFault::NoFmt => text.put(out, b"NoFmt"),
        WavFault::NoData => text.put(out, b"NoData"),
        WavFault::FmtShort => text.put(out, b"FmtShort"),
        WavFault::BadTag { tag } => put_named(text, out, b"BadTag", u64::from(*tag)),
        WavFault::BadBits { bits } => put_named(text, out, b"BadBits", u64::from(*bits)),
        WavFault::BadChannels { count } => put_named(text, out, b"BadChannels", u64::from(*count)),
        WavFault::BadAlign { align } => put_named(text, out, b"BadAlign", u64::from(*align)),
        WavFault::BadRate { rate } => put_named(text, out, b"BadRate", u64::from(*rate)),
        WavFault::Truncated { want, have } => put_pair(text, out, b"Truncated", *want, *have),
    }
}

// A file, a place in it, what is wanted there, and what is found.
pub fn put_damage<O: Sink>(
    text: &mut Gathered,
    out: &mut O,
    file: u64,
    at: u64,
    want: u128,
    have: u128,
)
    ensures bytes { Adds text.old (O.written out.old) text.new (O.written out.new) (damage_text file at want have) }
    ensures cause { Counts text.old (O.fault_count out.old) text.new (O.fault_count out.new) }
{
    put_pair(text, out, b"Damaged", file, at);
    put_wide(text, out, want);
    put_wide(text, out, have);
}

pub fn put_reason<O: Sink>(text: &mut Gathered, out: &mut O, reason: &Refusal)
    ensures bytes { Adds text.old (O.written out.old) text.new (O.written out.new) (reason_text reason.now) }
    ensures cause { Counts text.old (O.fault_count out.old) text.new (O.fault_count out.new) }
{
    match reason {
        Refusal::BadLine { column } => put_named(text, out, b"BadLine", *column),
        Refusal::Spent { turns } => put_named(text, out, b"Spent", *turns),
        Refusal::Stopped { faults } => put_named(text, out, b"Stopped", *faults),
        Refusal::NoTrack { id } => put_named(text, out, b"NoTrack", *id),
        Refusal::BadRange => text.put(out, b"BadRange"),
        Refusal::BadColumns => text.put(out, b"BadColumns"),
        Refusal::TrackLimit => text.put(out, b"TrackLimit"),
        Refusal::LengthLimit { len } => put_named(text, out, b"LengthLimit", *len),
        Refusal::EmptyClipboard => text.put(out, b"EmptyClipboard"),
        Refusal::TooNarrow { have, need } => put_pair(text, out, b"TooNarrow", *have, *need),
        Refusal::NothingToUndo => text.put(out, b"NothingToUndo"),
        Refusal::NothingToRedo => text.put(out, b"NothingToRedo"),
        Refusal::NoFile => text.put(out, b"NoFile"),
        Refusal::BadWav { fault } => {
            text.put(out, b"BadWav ");
            put_wav_fault(text, out, fault);
        }
        Refusal::RateDiffers { have, want } => {
            let wanted = u64::from(*want);
            put_pair(text, out, b"RateDiffers", u64::from(*have), wanted)
        }
        Refusal::TooLong { frames } => put_named(text, out, b"TooLong", *frames),
        Refusal::SpaceSpent { have, need } => put_pair(text, out, b"SpaceSpent", *have, *need),
        Refusal::RecordLimit { len } => put_named(text, out, b"RecordLimit", *len),
        Refusal::Damaged {
            file,
            at,
            want,
            have,
        } => put_damage(text, out, *file, *at, *want, *have),
        Refusal::DiskFault => text.put(out, b"DiskFault"),
        Refusal::VaultFault => text.put(out, b"VaultFault"),
        Refusal::NoPin { pin } => put_named(text, out, b"NoPin", *pin),
        Refusal::NoMemory => text.put(out, b"NoMemory"),
    }
}
