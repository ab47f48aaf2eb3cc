// A row of clips that several layouts have.
ghost use Rattle.std.specs.Prelude.{◌≡◌, [], IfOk};

use super::clips::Clip;
use pcm_base::NoMemory;
use std::alloc::Global;
use std::marker::Model;
use std::sync::Arc;

// Clips with a count of their owners, so that a copy costs nothing. Without an owner there are no clips. Contracts see
// them as a list.
#[derive(Drop)]
pub(crate) struct SharedClips {
    alloc: Global,
    clips: Option<Arc<Vec<Clip>>>,
}

impl Model for SharedClips {
    ghost use Rattle.std.specs.Prelude.{List};
    ghost use Rattle.clip_track.specs.declared.clips.Clip.{Clip};
    ghost use Rattle.clip_track.specs.Shared.{clips_of};

    ghost Value = { List Clip };

    ghost view = { λ s. clips_of s.clips };
}

impl SharedClips {
    // No clips. It takes no memory.
    pub(crate) fn new(alloc: Global) -> SharedClips
        ensures { result ≡ [] }
    {
        SharedClips { alloc, clips: None }
    }

    pub(crate) fn from_clips(clips: Vec<Clip>) -> Result<SharedClips, NoMemory>
        ensures { IfOk result (λ s. s ≡ clips.items) }
    {
        let alloc = *clips.allocator();
        let Ok(clips) = Arc::new(alloc, clips) else {
            return Err(NoMemory);
        };
        let clips = Some(clips);
        Ok(SharedClips { alloc, clips })
    }

    pub(crate) fn as_slice(&self) -> &[Clip]
        ensures { result.now ≡ self.now }
    {
        match &self.clips {
            Some(clips) => clips.as_slice(),
            None => &[],
        }
    }

    // The same clips, which both have then.
    pub(crate) fn copy(&self) -> Result<SharedClips, NoMemory>
        ensures { IfOk result (λ s. s ≡ self.now) }
    {
        let alloc = self.alloc;
        match &self.clips {
            Some(clips) => {
                let clips = Some(Arc::try_clone(clips)?);
                Ok(SharedClips { alloc, clips })
            }
            None => Ok(SharedClips::new(alloc)),
        }
    }

    pub(crate) fn allocator(&self) -> Global {
        self.alloc
    }
}
