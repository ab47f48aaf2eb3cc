// Samples that a command brings, put in at a place of a track or at its end.
ghost use Rattle.std.specs.Prelude.{◌≡◌, ◌⊎◌, ◌≤◌, ◌<◌, false, IfErr, IfOk, IsErr, IsTrue, None, length, take};
ghost use Rattle.pcm_base.specs.declared.chunk.TheConstants.{BATCH_SAMPLES};
ghost use Rattle.pcm_base.specs.declared.limits.TheConstants.{COUNTER_LIMIT};
ghost use Rattle.pcm_base.specs.Recordings.{later_pieces as pieces_after};
ghost use Rattle.pcm_base.specs.declared.answer.Reply.TheVariants as reply;
ghost use Rattle.pcm_base.specs.declared.command.Call.{Call};
ghost use Rattle.pcm_base.specs.declared.command.Call.TheVariants as call;
ghost use Rattle.pcm_base.specs.declared.command.Command.TheVariants as command;
ghost use Rattle.pcm_base.specs.declared.entry.SoundMove.{SoundMove};
ghost use Rattle.pcm_base.specs.Form.{IsNumber};
ghost use Rattle.pcm_base.specs.Sizes.{blocks_of_samples};
ghost use Rattle.clip_track.specs.Clips.{AllHalfFull, IsLayout, end_of, layout_blocks};
ghost use Rattle.clip_track.specs.Kept.{Keeps};
ghost use Rattle.edit_ops.specs.Plans.{AnswersTest, IsPlan, Means, start_of};
ghost use Rattle.block_writer.specs.Bringing.{brought_count};
ghost use Rattle.envelope_view.specs.Answers.{IsUndamaged};
ghost use Rattle.record_body.specs.Saved.{current_tracks};
ghost use Rattle.editor_core.specs.Core.{core_of};
ghost use Rattle.editor_state.specs.Edits.{IsStill};
ghost use Rattle.editor_state.specs.Exchanges.{may_begin};
ghost use Rattle.editor_tracks.specs.Inserts.{IsPlace, place_cells, place_edit, place_test};
ghost use Rattle.editor_state.specs.Studios.{IsHeld, IsStudio};
ghost use Rattle.editor_state.specs.Took.{Took, quietly, as_reply, with_sound};
ghost use Rattle.editor_tracks.specs.TrackEdits.{IsTrackCall, IsTrackPlan, NoTrackPlan, track_command};

use super::planning::planned;
use super::studio::Studio;
use block_writer::Given;
use clip_track::Layout;
use disk_model::Store;
use edit_ops::{Plan, Planner, insert};
use editor_state::Planned;
use editor_tracks::Place;
use pcm_base::{CHUNK_SAMPLES, Refusal};
use std::alloc::Global;

// Of which recording samples are, by its number, where 0 is none, and as how many commits beside one they come.
#[derive(Clone, Copy)]
struct Marks {
    tag: u64,
    more: u64,
}

/// How many samples of a recording were taken or refused together, and what was answered.
#[derive(Drop)]
pub struct Tried {
    pub count: usize,
    pub what: Result<u64, Refusal>,
}

// Whether a test refused it, or want of memory, so that nothing has changed.
fn is_idle(what: &Result<u64, Refusal>) -> bool
    ensures { IsTrue result → IfErr what.now (λ why. may_begin why ≡ false) × IsErr what.now }
{
    match *what {
        Err(
            Refusal::NoTrack { .. }
            | Refusal::LengthLimit { .. }
            | Refusal::SpaceSpent { .. }
            | Refusal::RecordLimit { .. }
            | Refusal::NoMemory,
        ) => true,
        _ => false,
    }
}

// How many samples there are: a sample takes two bytes.
fn len_of(samples: &[i16]) -> u64
    ensures value { result ≡ length samples.now }
    ensures few { result ≤ COUNTER_LIMIT }
{
    samples.len() as u64
}

// How many pieces these samples of a recording are after the first.
fn later_pieces(samples: &[i16]) -> u64
    ensures { result ≡ pieces_after (length samples.now) }
{
    len_of(samples).saturating_sub(1) / CHUNK_SAMPLES as u64
}

// How many samples a command brings.
fn count_of(given: &Given) -> u64
    ensures value { result ≡ brought_count given.now }
    ensures few { result ≤ COUNTER_LIMIT }
{
    match *given {
        Given::Nothing => 0,
        Given::Samples { samples } => len_of(samples),
        Given::Ramp { count, .. } => u64::from(count),
    }
}

// The plan of this many samples in a track.
fn plan_insert(planner: Planner, layout: &Layout, place: Place, count: u64) -> Result<Plan, Refusal>
    requires half_full { AllHalfFull planner.block_size layout.now }
    requires apart { IsLayout layout.now }
    requires place { IsPlace place }
    requires count { count ≤ COUNTER_LIMIT }
    ensures plan { IfOk result (λ p. IsPlan (start_of planner) (layout_blocks layout.now) count p) }
    ensures kept { IfOk result (λ p. Keeps p.kept (layout_blocks layout.now) (layout_blocks p.layout)) }
    ensures cells { IfOk result (λ p. Means (λ src. place_cells place count src.given) layout.now p) }
    ensures few { IfOk result (λ p. length p.makes ≤ blocks_of_samples planner.block_size count) }
    ensures tests { AnswersTest (place_test place count (end_of 0 layout.now)) result }
{
    match place {
        Place::At { at } => insert(planner, layout, at, count),
        Place::End => insert(planner, layout, layout.len(), count),
    }
}

impl<S: Store> Studio<S> {
    /// Puts samples in at a place of a track: those after it move on, and a shorter track is first continued by gaps.
    ///
    /// # Errors
    ///
    /// `Stopped` where a change of the disk failed in an earlier call; else `NoTrack` where the project lacks the
    /// track; else `LengthLimit` where it would have more than 2^32 cells; else `SpaceSpent` where a counter or the
    /// journal has no room, or `RecordLimit` where the record would be too long; or `NoMemory`. Nothing has changed
    /// then. `Damaged` where the file of a block that is read is not as it has to be, and `DiskFault` where the disk
    /// failed: nothing but the next block's number has changed then, and after a failed change the studio is stopped.
    pub fn put(
        &mut self,
        alloc: Global,
        track: u64,
        at: u64,
        samples: &[i16],
    ) -> Result<u64, Refusal>
        requires studio { IsStudio S.Store (core_of self.old) }
        requires in_form { IsNumber at }
        ensures took { Took S.Store (core_of self.old)
            (quietly (call.Line (command.Put track at samples.now)) (as_reply (λ _. reply.Done) result))
            (core_of self.new) }
        ensures number { IfOk result (λ n. n ≡ self.new.commit_number) }
        ensures valid { IsHeld S.Store (core_of self.old) → IfErr result IsUndamaged }
    {
        let marks = Marks { tag: 0, more: 0 };
        self.insert_given(
            alloc,
            track,
            Place::At { at },
            marks,
            &Given::Samples { samples },
        )
    }

    /// Puts this many samples in at a place of a track, from `start` on in steps, each limited to what a sample can be.
    ///
    /// # Errors
    ///
    /// Those of `put`.
    pub fn ramp(
        &mut self,
        alloc: Global,
        track: u64,
        at: u64,
        count: u32,
        start: i16,
        step: i16,
    ) -> Result<u64, Refusal>
        requires studio { IsStudio S.Store (core_of self.old) }
        requires in_form { IsNumber at }
        ensures took { Took S.Store (core_of self.old)
            (quietly (call.Line (command.Ramp track at count start step)) (as_reply (λ _. reply.Done) result))
            (core_of self.new) }
        ensures number { IfOk result (λ n. n ≡ self.new.commit_number) }
        ensures valid { IsHeld S.Store (core_of self.old) → IfErr result IsUndamaged }
    {
        let given = Given::Ramp { start, step, count };
        let marks = Marks { tag: 0, more: 0 };
        self.insert_given(alloc, track, Place::At { at }, marks, &given)
    }

    /// Puts samples of a recording in at the end of a track, at most 16,384. They are a piece for each 256 samples, the
    /// last one shorter, and each piece is a commit. All of them are in the journal at once: at any moment a stop
    /// leaves none of them or all. The tag is the recording's number, from 1 to the number of the last commit. Where
    /// the current project is of the same recording they go into it, and what could be redone goes; else they make a
    /// new point. It answers the number of the last commit.
    ///
    /// # Errors
    ///
    /// Those of `put`.
    pub fn piece(
        &mut self,
        alloc: Global,
        track: u64,
        tag: u64,
        samples: &[i16],
    ) -> Result<u64, Refusal>
        requires studio { IsStudio S.Store (core_of self.old) }
        requires tag { (1 ≤ tag) × (tag ≤ self.old.commit_number) }
        requires few { length samples.now ≤ BATCH_SAMPLES }
        ensures took { Took S.Store (core_of self.old)
            (quietly (call.Piece track tag samples.now) (as_reply (λ _. reply.Done) result)) (core_of self.new) }
        ensures number { IfOk result (λ n. n ≡ self.new.commit_number) }
        ensures valid { IsHeld S.Store (core_of self.old) → IfErr result IsUndamaged }
        ensures still { IfErr result (IsStill (core_of self.old) (core_of self.new)) }
    {
        let more = later_pieces(samples);
        let marks = Marks { tag, more };
        self.insert_given(alloc, track, Place::End, marks, &Given::Samples { samples })
    }

    /// Puts these samples in as [`Studio::piece`] does. Where a test or want of memory refuses them together, it does
    /// so with the first 256 alone.
    pub fn pieces(&mut self, alloc: Global, track: u64, tag: u64, samples: &[i16]) -> Tried
        requires studio { IsStudio S.Store (core_of self.old) }
        requires tag { (1 ≤ tag) × (tag ≤ self.old.commit_number) }
        requires few { length samples.now ≤ BATCH_SAMPLES }
        ensures took { Took S.Store (core_of self.old)
            (quietly (call.Piece track tag (take result.count samples.now)) (as_reply (λ _. reply.Done) result.what))
            (core_of self.new) }
        ensures count { (result.count ≡ length samples.now)
            ⊎ ((result.count ≡ CHUNK_SAMPLES) × (CHUNK_SAMPLES < length samples.now)) }
        ensures number { IfOk result.what (λ n. n ≡ self.new.commit_number) }
        ensures valid { IsHeld S.Store (core_of self.old) → IfErr result.what IsUndamaged }
    {
        let what = self.piece(alloc, track, tag, samples);
        if samples.len() > CHUNK_SAMPLES && is_idle(&what) {
            let what = self.piece(alloc, track, tag, &samples[..CHUNK_SAMPLES]);
            return Tried {
                count: CHUNK_SAMPLES,
                what,
            };
        }
        Tried {
            count: samples.len(),
            what,
        }
    }

    // Puts what a command brings in, as a point with the tag of the marks, and as their many commits beside one.
    fn insert_given(
        &mut self,
        alloc: Global,
        track: u64,
        place: Place,
        marks: Marks,
        given: &Given,
    ) -> Result<u64, Refusal>
        requires studio { IsStudio S.Store (core_of self.old) }
        requires place { IsPlace place }
        requires tag { marks.tag ≤ self.old.commit_number }
        requires counts { 0 < marks.more → 1 ≤ marks.tag }
        requires more { marks.more < 64 }
        ensures took { (c : Call) → (sound : SoundMove) → IsTrackCall c sound
            (track_command (place_edit place (brought_count given.now)) given.now track marks.tag marks.more)
            → Took S.Store (core_of self.old) (with_sound c sound (as_reply (λ _. reply.Done) result))
            (core_of self.new) }
        ensures number { IfOk result (λ n. n ≡ self.new.commit_number) }
        ensures valid { IsHeld S.Store (core_of self.old) → IfErr result IsUndamaged }
        ensures still { IfErr result (IsStill (core_of self.old) (core_of self.new)) }
    {
        if let Some(faults) = self.stopped {
            return Err(Refusal::Stopped { faults });
        }
        let planned = self.planned_insert(alloc, track, place, count_of(given))?;
        let mut given = *given;
        self.carry_out(planned, marks.tag, marks.more, &mut given)
    }

    // The project that this many samples in a track make of the current one.
    fn planned_insert(
        &self,
        alloc: Global,
        track: u64,
        place: Place,
        count: u64,
    ) -> Result<Planned, Refusal>
        requires studio { IsStudio S.Store (core_of self.now) }
        requires place { IsPlace place }
        requires count { count ≤ COUNTER_LIMIT }
        ensures plan { IfOk result (λ p. IsTrackPlan (place_edit place count) count track (core_of self.now) p) }
        ensures tracks { IfOk result (λ p. p.tracks ≡ 0) }
        ensures clip { IfOk result (λ p. p.clip ≡ None) }
        ensures err { IfErr result (NoTrackPlan (place_edit place count) track
            (current_tracks self.now.history.history)) }
    {
        let project = self.current();
        let old = project.track(track)?;
        let planner = Planner {
            alloc,
            block_size: self.buffers.block_size(),
            next: self.next_block,
        };
        let plan = plan_insert(planner, &old.layout, place, count)?;
        let planned = planned(project, old, plan, self.next_layout)?;
        Ok(planned)
    }
}
