// What a bounce needs memory for.
ghost use Rattle.std.specs.Prelude.{◌≤◌, IfOk};
ghost use Rattle.pcm_base.specs.declared.limits.TheConstants.{MAX_LOADED};
ghost use Rattle.sound_bounce.specs.Bounces.{HasRoom};

use pcm_base::{Frame, NoMemory};
use std::alloc::Global;

/// The frames of the stretch that is mixed, those of the stretch before it, which are mixed and not yet written, and
/// the bytes of these.
#[derive(Drop)]
pub(crate) struct Buffers {
    pub(crate) frames: Vec<Frame>,
    pub(crate) held: Vec<Frame>,
    pub(crate) bytes: Vec<u8>,
}

impl Buffers {
    /// Room for this many frames. The samples of the tracks take theirs at the first two loads, when it is known how
    /// many tracks there are.
    pub(crate) fn new(alloc: Global, batch: usize) -> Result<Buffers, NoMemory>
        requires few { batch ≤ MAX_LOADED }
        ensures room { IfOk result (λ b. HasRoom batch b) }
    {
        let silence = Frame { left: 0, right: 0 };
        let frames = vec![in alloc; silence; batch]?;
        let held = vec![in alloc; silence; batch]?;
        let bytes = vec![in alloc; 0u8; 64 + 4 * batch]?;
        Ok(Buffers {
            frames,
            held,
            bytes,
        })
    }
}
