// Pieces of a recording in one turn.
ghost use Rattle.std.specs.Prelude.{◌≡◌, ◌⊎◌, ◌<◌, ◌≤◌, IfOk, length, take};
ghost use Rattle.pcm_base.specs.declared.answer.Reply.TheVariants.{Done};
ghost use Rattle.pcm_base.specs.declared.chunk.TheConstants.{BATCH_SAMPLES};
ghost use Rattle.pcm_base.specs.declared.command.Call.TheVariants.{Piece};
ghost use Rattle.pin_turn.specs.Calls.{known};
ghost use Rattle.editor_core.specs.Core.{core_of};
ghost use Rattle.editor_state.specs.Studios.{IsStudio};
ghost use Rattle.editor_state.specs.Took.{Took, quietly, silent, as_reply};
ghost use Rattle.studio_seats.specs.Deeds.{number_after};
ghost use Rattle.studio_seats.specs.Desks.{IsAt, Says, asked, start_at, views};
ghost use Rattle.studio_seats.specs.Stands.{origin};

use super::Desk;
use super::said::said_by;
use crate::held::{DeskSeat, Held};
use disk_model::Store;
use edit_ports::Vault;
use pcm_base::{CHUNK_SAMPLES, Said};
use std::alloc::Global;
use std::marker::Brand;
use std::sync::Wait;

/// The next samples of a recording: to which track they come, with the recording's number as their tag.
#[derive(Clone, Copy)]
pub struct NextSamples<'s> {
    pub track: u64,
    pub tag: u64,
    pub samples: &'s [i16],
}

/// How many samples of a recording were added or refused together, and what was answered.
#[derive(Drop)]
pub struct SaidPieces {
    pub count: usize,
    pub said: Said<u64>,
}

impl<S: Store, V: Vault> Desk<S, V> {
    /// Adds the next samples of a recording at the end of a track, as pieces of 256 samples, the last one shorter, and
    /// answers the number of the last commit. Where a test or want of memory refuses them together, it tries the first
    /// 256 alone, in the same turn. The tag is the recording's number: a commit number of which the seat knows.
    ///
    /// # Errors
    ///
    /// Those of [`Studio::pieces`](editor_core::Studio::pieces); `Spent` where no turn is left.
    pub fn pieces<R: Wait>(
        &self,
        rt: &R,
        alloc: Global,
        seat: &mut DeskSeat<S, V>,
        next: NextSamples<'_>,
    ) -> SaidPieces
        requires seat { IsAt self.now seat.old }
        requires tag { (1 ≤ next.tag)
            × (next.tag ≤ number_after (start_at self.now).commit_number (known seat.old).seen) }
        requires few { length next.samples.now ≤ BATCH_SAMPLES }
        ensures same { IsAt self.now seat.new }
        ensures says { Says (origin S.Store V.Vault (start_at self.now))
            (asked (Piece next.entry.track next.entry.tag (take result.count next.entry.samples.now))
            (as_reply (λ _. Done) result.said.what) silent) result.said (views (known seat.old) (known seat.new)) }
        ensures number { IfOk result.said.what (λ n. n ≡ result.said.at) }
        ensures count { (result.count ≡ length next.entry.samples.now)
            ⊎ ((result.count ≡ CHUNK_SAMPLES) × (CHUNK_SAMPLES < length next.entry.samples.now)) }
    {
        let mut count = next.samples.len();
        let said = self.try_pieces(rt, alloc, seat, next, &mut count);
        SaidPieces { count, said }
    }

    // The same, where the count is at first that of all samples.
    fn try_pieces<R: Wait>(
        &self,
        rt: &R,
        alloc: Global,
        seat: &mut DeskSeat<S, V>,
        next: NextSamples<'_>,
        count: &mut usize,
    ) -> Said<u64>
        requires seat { IsAt self.now seat.old }
        requires tag { (1 ≤ next.tag)
            × (next.tag ≤ number_after (start_at self.now).commit_number (known seat.old).seen) }
        requires few { length next.samples.now ≤ BATCH_SAMPLES }
        requires whole { count.old ≡ length next.samples.now }
        ensures same { IsAt self.now seat.new }
        ensures says { Says (origin S.Store V.Vault (start_at self.now))
            (asked (Piece next.entry.track next.entry.tag (take count.new next.entry.samples.now))
            (as_reply (λ _. Done) result.what) silent) result (views (known seat.old) (known seat.new)) }
        ensures number { IfOk result.what (λ n. n ≡ result.at) }
        ensures count { (count.new ≡ length next.entry.samples.now)
            ⊎ ((count.new ≡ CHUNK_SAMPLES) × (CHUNK_SAMPLES < length next.entry.samples.now)) }
    {
        let NextSamples {
            track,
            tag,
            samples,
        } = next;
        said_by(
            self.turn.with::<R, Said<u64>, _, Brand>(
                rt,
                seat,
                &mut |held: &mut Held<S, V>| -> Said<u64>
                    requires studio { IsStudio S.Store (core_of held.old.studio) }
                    requires tag { (1 ≤ tag) × (tag ≤ held.old.studio.commit_number) }
                    requires few { length samples.now ≤ BATCH_SAMPLES }
                    ensures took { Took S.Store (core_of held.old.studio)
                        (quietly (Piece track tag (take count.exit.now samples.entry.now))
                        (as_reply (λ _. Done) result.what)) (core_of held.new.studio) }
                    ensures at { result.at ≡ (core_of held.new.studio).commit_number }
                    ensures number { IfOk result.what (λ n. n ≡ result.at) }
                    ensures count { (count.exit.now ≡ length samples.entry.now)
                        ⊎ ((count.exit.now ≡ CHUNK_SAMPLES) × (CHUNK_SAMPLES < length samples.entry.now)) }
                {
                    let tried = held.studio.pieces(alloc, track, tag, samples);
                    *count = tried.count;
                    let at = held.studio.commit_number();
                    Said {
                        at,
                        what: tried.what,
                    }
                },
            ),
        )
    }
}
