// An edit that makes blocks, from its plan to its commit.
ghost use Rattle.std.specs.Prelude.{◌≡◌, ◌⊎◌, ℕ, ℤ, suc, ◌+◌, ◌≤◌, ◌<◌, ◌^◌, length, vec_capacity, IfErr, IfOk};
ghost use Rattle.std.specs.Prelude.{MatchResult, OnOk, None, Some, false};
ghost use Rattle.pcm_base.specs.declared.limits.TheConstants.{MAX_TRACKS};
ghost use Rattle.pcm_base.specs.declared.answer.Reply.TheVariants as reply;
ghost use Rattle.pcm_base.specs.declared.command.Call.{Call};
ghost use Rattle.pcm_base.specs.declared.entry.SoundMove.{SoundMove};
ghost use Rattle.pcm_base.specs.Counters.{commits_of, no_room};
ghost use Rattle.block_ledger.specs.Counts.{occurrences};
ghost use Rattle.layout_uses.specs.Tallies.{uses_of};
ghost use Rattle.row_ledger.specs.Lists.{counts_of, spare_of};
ghost use Rattle.edit_ops.specs.Plans.{AreNew};
ghost use Rattle.block_writer.specs.Brought.{MayBring};
ghost use Rattle.block_writer.specs.Bringers.{StillBrings};
ghost use Rattle.envelope_view.specs.Answers.{IsUndamaged};
ghost use Rattle.editor_state.specs.Applied.{Lasts};
ghost use Rattle.project_journal.specs.Journal.{AreWaiting};
ghost use Rattle.record_body.specs.Saved.{current_tracks};
ghost use Rattle.project_state.specs.Numbers.{AgreeById};
ghost use Rattle.record_body.specs.Numbers.{BodyAgrees, BodyKeeps};
ghost use Rattle.editor_state.specs.Adding.{Undrawn};
ghost use Rattle.editor_state.specs.Bodies.{all_bytes, all_len, whole_len, writing};
ghost use Rattle.editor_core.specs.Core.{core_of};
ghost use Rattle.editor_state.specs.Edits.{Spends, IsPlanned, IsEdit, IsPrepared, NotPrepared, Carried, clip_then};
ghost use Rattle.editor_state.specs.Edits.{IsStill, MayServe, tagged_by};
ghost use Rattle.editor_state.specs.Vaults.{IfCutShort, IsInsideOr};
ghost use Rattle.editor_state.specs.Makes.{RefusedBrought};
ghost use Rattle.editor_state.specs.Made.{AllInOrder, PiecesReadable};
ghost use Rattle.editor_state.specs.Occurrences.{AreSingle, HasIds, Moves, MovesSingles};
ghost use Rattle.editor_state.specs.Studios.{IsHeld, IsStudio, MayPaste, clip_blocks};
ghost use Rattle.editor_state.specs.Took.{Took, as_reply, with_sound};

use super::studio::Studio;
use block_writer::Brings;
use clip_track::Kept;
use disk_model::Store;
use edit_ops::{NewBlock, Strips};
use editor_state::Planned;
use pcm_base::{COUNTER_LIMIT, NoMemory, Refusal};
use record_body::Body;

// How many track ids and layout numbers an edit gives.
#[derive(Clone, Copy)]
struct Draws {
    tracks: u64,
    layouts: u64,
}

// Whether a counter has room for this many more.
fn has_room(have: u64, need: u64) -> Result<(), Refusal>
    requires { have ≤ COUNTER_LIMIT }
    ensures { MatchResult result (λ _. have + need ≤ COUNTER_LIMIT) (λ e. no_room have need ≡ Some e) }
{
    if need > COUNTER_LIMIT - have {
        return Err(Refusal::SpaceSpent { have, need });
    }
    Ok(())
}

impl<S: Store> Studio<S> {
    // Whether the counters have room for this many blocks, track ids and commits.
    fn may_make(&self, blocks: u64, tracks: u64, count: u64) -> Result<(), Refusal>
        requires next { self.now.next_block ≤ COUNTER_LIMIT }
        requires ids { self.now.next_track ≤ COUNTER_LIMIT }
        requires number { self.now.commit_number ≤ COUNTER_LIMIT }
        ensures blocks { OnOk result (self.now.next_block + blocks ≤ COUNTER_LIMIT) }
        ensures ids { OnOk result (self.now.next_track + tracks ≤ COUNTER_LIMIT) }
        ensures number { OnOk result (self.now.commit_number + count ≤ COUNTER_LIMIT) }
        ensures err { IfErr result (Spends (core_of self.now) blocks tracks count) }
    {
        has_room(self.next_block, blocks)?;
        has_room(self.next_track, tracks)?;
        has_room(self.commit_number, count)
    }

    // Whether numbers are left for this many layouts. The journal's places are tested before, for records of this many
    // bytes.
    pub(crate) fn may_draw(&self, whole: u64, layouts: u64) -> Result<(), Refusal>
        requires small { whole ≤ 2 ^ 53 }
        requires end { self.now.journal_end ≤ COUNTER_LIMIT }
        requires layouts { self.now.next_layout ≤ COUNTER_LIMIT }
        ensures ok { OnOk result (self.now.next_layout + layouts ≤ COUNTER_LIMIT) }
        ensures err { IfErr result (Undrawn self.now.journal_end self.now.next_layout layouts whole) }
    {
        has_room(self.journal_end, 6 + whole)?;
        has_room(self.next_layout, layouts)
    }

    // Makes room for this many blocks in the ledger, and for a point in the history.
    fn ready_counts(&mut self, count: u64) -> Result<(), NoMemory>
        ensures same { core_of self.new ≡ core_of self.old }
        ensures spare { OnOk result (count ≤ spare_of self.new.tally.ledger) }
        ensures point { OnOk result (length self.new.history.history.points < self.new.history.capacity) }
        ensures uses { OnOk result (MAX_TRACKS ≤ self.new.tally.uses.spare) }
    {
        self.tally.ledger.reserve(count)?;
        self.make_room()
    }

    // Tests the counters, the journal's places and the numbers of layouts, takes all memory that is needed, and writes
    // the records into the row. It does not use the disk.
    fn prepare(
        &mut self,
        body: &Body,
        more: u64,
        blocks: u64,
        tracks: u64,
        layouts: u64,
        kept: Kept,
    ) -> Result<(), Refusal>
        requires numbers { BodyAgrees (current_tracks self.old.history.history) body.now }
        requires kept { BodyKeeps kept (current_tracks self.old.history.history) body.now }
        requires again { AgreeById (current_tracks self.old.history.history) (current_tracks self.old.history.history) }
        requires layouts { self.old.next_layout ≤ COUNTER_LIMIT }
        requires next { self.old.next_block ≤ COUNTER_LIMIT }
        requires ids { self.old.next_track ≤ COUNTER_LIMIT }
        requires number { self.old.commit_number ≤ COUNTER_LIMIT }
        requires end { self.old.journal_end ≤ COUNTER_LIMIT }
        requires more { more < 64 }
        ensures same { core_of self.new ≡ core_of self.old }
        ensures prepared { OnOk result (IsPrepared (core_of self.old) blocks tracks layouts (more + 1)
            (all_len (core_of self.old) (writing more body.now))) }
        ensures rows { OnOk result (AreWaiting self.new.row.items
            (all_bytes (core_of self.old) (writing more body.now))) }
        ensures room { OnOk result (1 + length self.new.row.items ≤ vec_capacity self.new.row) }
        ensures spare { OnOk result (blocks ≤ spare_of self.new.tally.ledger) }
        ensures point { OnOk result (length self.new.history.history.points < self.new.history.capacity) }
        ensures uses { OnOk result (MAX_TRACKS ≤ self.new.tally.uses.spare) }
        ensures layouts { OnOk result (self.old.next_layout + layouts ≤ COUNTER_LIMIT) }
        ensures err { IfErr result (NotPrepared (core_of self.old) blocks tracks layouts (more + 1)
            (whole_len (core_of self.old) (writing more body.now))
            (all_len (core_of self.old) (writing more body.now))) }
    {
        self.may_make(blocks, tracks, more + 1)?;
        let whole = self.whole_size(body, more)?;
        self.may_draw(whole, layouts)?;
        self.may_write(body, more, kept)?;
        self.ready_counts(blocks)?;
        self.write_records(body, more, kept)?;
        Ok(())
    }

    // Makes the blocks of an edit, and adds its records.
    fn carry<G: Brings>(
        &mut self,
        body: &Body,
        more: u64,
        makes: &[NewBlock],
        draws: Draws,
        kept: Kept,
        given: &mut G,
    ) -> Result<(), Refusal>
        requires studio { IsStudio S.Store (core_of self.old) }
        requires numbers { BodyAgrees (current_tracks self.old.history.history) body.now }
        requires kept { BodyKeeps kept (current_tracks self.old.history.history) body.now }
        requires more { more < 64 }
        requires new { AreNew self.old.buffers self.old.next_block makes.now }
        requires pieces { PiecesReadable (G.brings given.old).count makes.now }
        requires order { (G.brings given.old).tells ≡ false
            → AllInOrder 0 (G.brings given.old).count makes.now }
        ensures carried { (samples : ℕ → ℤ) × MayBring (G.brings given.old) samples
            × Carried S.Store (core_of self.old)
            (record {
              makes = makes.now;
              given = samples;
              tracks = draws.tracks;
              layouts = draws.layouts;
              count = suc more;
              bodies = all_bytes (core_of self.old) (writing more body.now);
              whole = whole_len (core_of self.old) (writing more body.now);
            })
            result (core_of self.new) }
        ensures device { IfErr result (IsInsideOr (G.brings given.old)) }
        ensures history { self.new.history.history ≡ self.old.history.history }
        ensures point { OnOk result (length self.new.history.history.points < self.new.history.capacity) }
        ensures still { StillBrings G.Brings given.old given.new }
        ensures given { RefusedBrought result (G.fault_count given.old) (G.fault_count given.new) }
        ensures uses { OnOk result (MAX_TRACKS ≤ self.new.tally.uses.spare) }
        ensures layouts { OnOk result (self.old.next_layout + draws.layouts ≤ COUNTER_LIMIT) }
    {
        let blocks = makes.len() as u64;
        self.prepare(body, more, blocks, draws.tracks, draws.layouts, kept)?;
        self.make_blocks(makes, given)?;
        self.commit_rows(more + 1)
    }

    // Puts what an edit takes out, if anything, into the clipboard. It takes no memory.
    fn take_out(&mut self, clip: Option<Strips>)
        requires there { HasIds (counts_of self.old.tally.ledger) (clip_blocks (clip_then clip self.old.clipboard)) }
        requires room { (id : ℕ) → occurrences (counts_of self.old.tally.ledger id) < 2 ^ 102 }
        requires fits { MayPaste self.old.buffers (clip_then clip self.old.clipboard) }
        requires named { AreSingle self.old.tally.ledger (clip_blocks self.old.clipboard) }
        ensures fields { core_of self.new ≡ record (core_of self.old) {
          clipboard = clip_then clip self.old.clipboard;
          uses = uses_of self.new.tally;
          counts = counts_of self.new.tally.ledger;
        } }
        ensures moves { Moves (counts_of self.old.tally.ledger) (counts_of self.new.tally.ledger)
            (clip_blocks self.old.clipboard) (clip_blocks (clip_then clip self.old.clipboard)) }
        ensures single { MovesSingles (uses_of self.old.tally) (uses_of self.new.tally)
            (clip_blocks self.old.clipboard) (clip_blocks (clip_then clip self.old.clipboard)) }
    {
        match clip {
            Some(strips) => self.take_clip(strips),
            None => {}
        }
    }

    // Carries an edit out: makes its blocks, adds its record, and this many with the current point before it, records
    // its point under this tag, where 0 is none, and puts what it takes out into the clipboard.
    pub(crate) fn carry_out<G: Brings>(
        &mut self,
        edit: Planned,
        tag: u64,
        more: u64,
        given: &mut G,
    ) -> Result<u64, Refusal>
        requires studio { IsStudio S.Store (core_of self.old) }
        requires going { self.old.stopped ≡ None }
        requires planned { (samples : ℕ → ℤ)
            → IsPlanned (core_of self.old) (tagged_by edit tag more (G.brings given.old) samples) }
        requires order { (G.brings given.old).tells ≡ false → AllInOrder 0 (G.brings given.old).count edit.makes }
        requires next { edit.next ≡ self.old.next_block + length edit.makes }
        requires few { edit.tracks ≤ 64 }
        requires more { more < 64 }
        // By some samples that may be brought it is what each call does that the edit is, unless fewer came than were
        // said.
        ensures took { (samples : ℕ → ℤ) × MayBring (G.brings given.old) samples
            × ((c : Call) → (sound : SoundMove) → MayServe (G.brings given.old) c
            → IsEdit S.Store (core_of self.old) c sound (tagged_by edit tag more (G.brings given.old) samples)
            → IfCutShort result ⊎ Took S.Store (core_of self.old)
            (with_sound c sound (as_reply (λ _. reply.Done) result)) (core_of self.new)) }
        // Whatever the call means, and whatever is reported.
        ensures lasts { (c : Call) → (sound : SoundMove) → MayServe (G.brings given.old) c → commits_of c ≡ suc more
            → Lasts S.Store (core_of self.old) (with_sound c sound (as_reply (λ _. reply.Done) result))
            (core_of self.new) }
        ensures number { IfOk result (λ n. n ≡ self.new.commit_number) }
        ensures valid { IsHeld S.Store (core_of self.old) → IfErr result IsUndamaged }
        ensures device { IfErr result (IsInsideOr (G.brings given.old)) }
        ensures still { IfErr result (IsStill (core_of self.old) (core_of self.new)) }
        ensures keeps { StillBrings G.Brings given.old given.new }
        ensures given { RefusedBrought result (G.fault_count given.old) (G.fault_count given.new) }
    {
        let Planned {
            point,
            makes,
            next,
            tracks,
            layouts,
            clip,
            kept,
        } = edit;
        let body = Body::Edit {
            tag,
            next_block: next,
            next_track: self.next_track + tracks,
            point,
        };
        let draws = Draws { tracks, layouts };
        self.carry(&body, more, makes.as_slice(), draws, kept, given)?;
        let Body::Edit { point, .. } = body else {
            unreachable!();
        };
        self.take_recorded(point, tag, tracks, layouts, kept);
        self.take_out(clip);
        Ok(self.commit_number)
    }
}
