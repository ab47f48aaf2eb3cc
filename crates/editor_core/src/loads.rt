// A pin's tracks, loaded.
ghost use Rattle.std.specs.Prelude.{◌≡◌, ◌+◌, ◌^◌, ◌<◌, ◌≤◌, None, IfErr};
ghost use Rattle.pcm_base.specs.declared.limits.TheConstants.{MAX_LOADED};
ghost use Rattle.pcm_base.specs.declared.refusal.Refusal.TheVariants.{NoMemory};
ghost use Rattle.block_cache.specs.Caches.{SameCache};
ghost use Rattle.editor_core.specs.Core.{core_of};
ghost use Rattle.editor_views.specs.Loads.{Loads};
ghost use Rattle.editor_views.specs.Pins.{HasPin};
ghost use Rattle.editor_state.specs.Studios.{IsStudio};

use super::pinned::point_of;
use super::studio::Studio;
use disk_model::Store;
use mix_reader::load_stretch;
use mixdown::Loaded;
use pcm_base::Refusal;

impl<S: Store> Studio<S> {
    /// Loads the samples of a pinned project's tracks that are heard, with their gains and sides, from a place on: as
    /// many frames as there are, up to `n`. It answers how many. It asks for all memory before it asks the disk.
    /// Nothing is changed but the pages that are kept, which take memory only where there is some. After an error
    /// what is loaded may have been replaced in part.
    ///
    /// # Errors
    ///
    /// `Stopped` where a change of the disk failed in an earlier call; else `NoPin` where no pin has the number; else
    /// `NoMemory` where there is none for the samples; else `DiskFault` where a read fails: the studio goes on. A disk
    /// that holds what the studio stands for shows no damaged file.
    pub fn load_pin(
        &mut self,
        pin: u64,
        from: u64,
        n: usize,
        loaded: &mut Loaded,
    ) -> Result<usize, Refusal>
        requires studio { IsStudio S.Store (core_of self.old) }
        requires most { n ≤ MAX_LOADED }
        requires few { from + n < 2 ^ 64 }
        ensures loads { Loads S.Store (core_of self.old) (record { pin = pin; from = from; most = n }) result loaded.new
            (core_of self.new) }
        // Where the cache has all pages of the pin's tracks that are heard, only memory may be refused, whatever the
        // store would answer, and the store is asked nothing.
        ensures hit { self.old.stopped ≡ None → HasPin self.old.reader.cache self.old.pins.items pin from (from + n)
            → IfErr result (λ why. why ≡ NoMemory) × (self.new.reader.store ≡ self.old.reader.store)
            × SameCache self.old.reader.cache self.new.reader.cache }
    {
        if let Some(faults) = self.stopped {
            return Err(Refusal::Stopped { faults });
        }
        let point = point_of(&self.pins, pin)?;
        match load_stretch(&mut self.reader, point, from, n, loaded) {
            Ok(count) => Ok(count),
            Err(fault) => Err(fault.into()),
        }
    }
}
