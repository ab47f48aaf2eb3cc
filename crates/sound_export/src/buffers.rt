// Room for what is read and mixed at a time.
use pcm_base::Frame;

/// How many samples of tracks are read at a time, all tracks together: 1,024 of each where 64 are heard.
const MIX_SAMPLES: usize = 65_536;

/// How many frames are mixed and written at a time.
pub(crate) const MIX_FRAMES: usize = 16_384;

/// Room for a stretch of each track that is heard, and for the frames of their mix: 192 KiB in all.
#[derive(Drop)]
pub struct MixBuffers {
    pub(crate) samples: [i16; MIX_SAMPLES],
    pub(crate) frames: [Frame; MIX_FRAMES],
}

impl MixBuffers {
    /// Such room. It takes no memory but its own.
    pub fn new() -> MixBuffers {
        MixBuffers {
            samples: [0; MIX_SAMPLES],
            frames: [Frame { left: 0, right: 0 }; MIX_FRAMES],
        }
    }
}
