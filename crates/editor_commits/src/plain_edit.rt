// An edit that makes no blocks.
use pcm_base::Side;

/// An edit that makes no blocks.
#[derive(Clone, Copy)]
pub enum PlainEdit {
    Track,
    Drop { track: u64 },
    Level { track: u64, gain: u32 },
    Side { track: u64, side: Side },
    Mute { track: u64, mute: bool },
}
