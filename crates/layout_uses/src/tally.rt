// Uses of layouts, and how often each block is named.
ghost use Rattle.std.specs.Prelude.{◌≡◌, ◌+◌, ◌≤◌, ◌<◌, ◌^◌, ◌∷◌, ◌++◌, ◌↔◌, ℕ, List, [], None, Some, IsSome, IfSome};
ghost use Rattle.std.specs.Prelude.{IfNone};
ghost use Rattle.std.specs.Prelude.{IsTrue, OnOk, is_none, length};
ghost use Rattle.pcm_base.specs.declared.block.BlockRef.{BlockRef};
ghost use Rattle.block_ledger.specs.Counts.{IsFirstFree, occurrences};
ghost use Rattle.block_ledger.specs.Entries.{count_of};
ghost use Rattle.row_ledger.specs.Lists.{counts_of};
ghost use Rattle.clip_track.specs.Clips.{layout_blocks};
ghost use Rattle.project_state.specs.declared.track.Track.{Track};
ghost use Rattle.layout_uses.specs.Layouts.{AreNumbered, track_blocks};
ghost use Rattle.project_state.specs.Tracks.{track_of};
ghost use Rattle.layout_uses.specs.Occurrences.{HasIds, KeepsList, times_named};
ghost use Rattle.layout_uses.specs.Staying.{MayKeep};
ghost use Rattle.layout_uses.specs.Tallies.{Comes, Goes, Has, IsTally, SameIds};

use super::blocks::{drop_blocks, drop_layout, hold_blocks, hold_layout};
use block_ledger::Ledger;
use clip_track::Kept;
use pcm_base::{BlockRef, NoMemory};
use project_state::{Point, Track};
use row_ledger::RowLedger;
use std::alloc::Global;

/// How often each layout is used, by its number, and how often each block is named by the layouts so used and by what
/// else names blocks. A layout is named by a list of its ids, and by itself where there was too little memory for one.
#[derive(Drop)]
pub struct Tally {
    pub uses: Ledger,
    pub ledger: RowLedger,
}

// Whether a layout is used by nothing.
fn is_unused(uses: &Ledger, number: u64) -> bool
    ensures { result ≡ is_none (count_of uses.now number) }
{
    uses.count(number).is_none()
}

// Whether the last use of a layout went.
fn is_free(uses: &Ledger, number: u64) -> bool
    ensures { IsTrue result ↔ (count_of uses.now number ≡ Some 0) }
{
    match uses.count(number) {
        Some(uses) => uses == 0,
        None => false,
    }
}

impl Tally {
    /// Nothing is used yet, and nothing named.
    pub fn new(alloc: Global) -> Tally
        ensures counted { IsTally [] [] result }
        ensures none { (id : ℕ) → counts_of result.ledger id ≡ None }
    {
        Tally {
            uses: Ledger::new(alloc),
            ledger: RowLedger::new(alloc),
        }
    }

    /// Makes room for the uses of this many layouts.
    pub fn reserve(&mut self, layouts: u64) -> Result<(), NoMemory>
        ensures uses { (n : ℕ) → count_of self.new.uses n ≡ count_of self.old.uses n }
        ensures ledger { self.new.ledger ≡ self.old.ledger }
        ensures ok { OnOk result (layouts ≤ self.new.uses.spare) }
        ensures room { self.old.uses.spare ≤ self.new.uses.spare }
    {
        self.uses.reserve(layouts)
    }

    /// A track uses its layout. Where it is the first that does, the layout's blocks, which are all there, are named by
    /// it. As many blocks at both ends as `kept` says are those of the layout of the number `base`. That takes a step
    /// for each block between them, and for each row of blocks. Where `kept` says 0 and 0, the layouts are compared.
    /// It cannot fail: where there is too little memory for a list, the blocks are named one by one.
    pub fn use_track(&mut self, track: &Track, base: u64, kept: Kept)
        requires room { 0 < self.old.uses.spare }
        requires kept { KeepsList kept self.old.ledger base track.now.number (layout_blocks track.now.layout) }
        requires there { HasIds (counts_of self.old.ledger) (layout_blocks track.now.layout) }
        requires few { (id : ℕ) → occurrences (counts_of self.old.ledger id)
            + times_named id (layout_blocks track.now.layout) < 2 ^ 128 }
        ensures { Comes (track.now ∷ []) self.old self.new }
    {
        let is_first = is_unused(&self.uses, track.number);
        self.uses.hold(track.number);
        if is_first {
            hold_layout(
                &mut self.ledger,
                track.number,
                base,
                kept,
                track.layout.as_slice(),
            );
        }
    }

    // A track uses its layout, which keeps so much of that of the track of its id in a point. The place `first` of that
    // point is looked at first.
    fn use_like(&mut self, track: &Track, base: &Point, first: usize, kept: Kept)
        requires room { 0 < self.old.uses.spare }
        requires kept { (old : Track) → track_of track.now.id base.now ≡ Some old
            → KeepsList kept self.old.ledger old.number track.now.number (layout_blocks track.now.layout) }
        requires there { HasIds (counts_of self.old.ledger) (layout_blocks track.now.layout) }
        requires few { (id : ℕ) → occurrences (counts_of self.old.ledger id)
            + times_named id (layout_blocks track.now.layout) < 2 ^ 128 }
        ensures { Comes (track.now ∷ []) self.old self.new }
    {
        match base.place_of(track.id, first) {
            Some(i) => {
                let old = base.track_at(i);
                self.use_track(track, old.number, kept);
            }
            None => {
                let none = Kept::none();
                self.use_track(track, 0, none);
            }
        }
    }

    /// A track uses its layout no more. Where none is left that does, its blocks are named no more by it, and its
    /// number is forgotten. It takes no memory.
    pub fn leave_track(&mut self, track: &Track)
        requires { Has (track.now ∷ []) self.old }
        ensures { Goes (track.now ∷ []) self.old self.new }
    {
        self.uses.drop_one(track.number);
        if is_free(&self.uses, track.number) {
            self.uses.forget(track.number);
            drop_layout(&mut self.ledger, track.number, track.layout.as_slice());
        }
    }

    /// A point uses the layouts of its tracks. Each is like that of the track of its id in the point `base`, and keeps
    /// as many of its blocks at both ends as `kept` says. It cannot fail, as [`Tally::use_track`] cannot.
    pub fn use_point(&mut self, point: &Point, base: &Point, kept: Kept)
        requires room { length point.now ≤ self.old.uses.spare }
        requires kept { MayKeep kept base.now point.now self.old }
        requires there { HasIds (counts_of self.old.ledger) (track_blocks point.now) }
        requires few { (id : ℕ) →
            occurrences (counts_of self.old.ledger id) + times_named id (track_blocks point.now) < 2 ^ 128 }
        ensures { Comes point.now self.old self.new }
    {
        for i in (0..point.len()).rev() {
            let track = point.track_at(i);
            self.use_like(track, base, i, kept);
        }
    }

    /// A point uses the layouts of its tracks no more. It takes no memory.
    pub fn leave_point(&mut self, point: &Point)
        requires { Has point.now self.old }
        ensures { Goes point.now self.old self.new }
    {
        for i in 0..point.len() {
            self.leave_track(point.track_at(i));
        }
    }

    /// Blocks, which are all there, are named by something else than a layout, as by what was copied. It takes no
    /// memory.
    pub fn name_blocks(&mut self, blocks: &[BlockRef])
        requires there { HasIds (counts_of self.old.ledger) blocks.now }
        requires few { (id : ℕ) → occurrences (counts_of self.old.ledger id) + times_named id blocks.now < 2 ^ 128 }
        ensures counted { (tracks : List Track) (others : List BlockRef) → IsTally tracks others self.old
            → IsTally tracks (blocks.now ++ others) self.new }
        ensures ids { SameIds self.old self.new }
        ensures uses { self.new.uses ≡ self.old.uses }
    {
        hold_blocks(&mut self.ledger, blocks);
    }

    /// Blocks are named no more by that. It takes no memory.
    pub fn unname_blocks(&mut self, blocks: &[BlockRef])
        requires { (tracks : List Track) × (others : List BlockRef) × IsTally tracks (blocks.now ++ others) self.old }
        ensures counted { (tracks : List Track) (others : List BlockRef) → IsTally tracks
            (blocks.now ++ others) self.old
            → IsTally tracks others self.new }
        ensures ids { SameIds self.old self.new }
        ensures uses { self.new.uses ≡ self.old.uses }
    {
        drop_blocks(&mut self.ledger, blocks);
    }

    /// Whether anything names a block.
    pub fn is_named(&self, id: u64) -> bool
        ensures { (tracks : List Track) (others : List BlockRef) → AreNumbered tracks → IsTally tracks others self.now
            → IsTrue result ↔ (0 < times_named id (track_blocks tracks ++ others)) }
    {
        self.ledger.is_named(id)
    }

    /// The least block of the ledger that nothing names.
    pub fn first_unnamed(&self) -> Option<u64>
        ensures found { IfSome result (IsFirstFree (counts_of self.now.ledger)) }
        ensures unnamed { (tracks : List Track) (others : List BlockRef) → AreNumbered tracks
            → IsTally tracks others self.now
            → IfSome result (λ id. times_named id (track_blocks tracks ++ others) ≡ 0) }
        ensures none { (tracks : List Track) (others : List BlockRef) → AreNumbered tracks
            → IsTally tracks others self.now
            → IfNone result ((id : ℕ) → IsSome (counts_of self.now.ledger id)
            → 0 < times_named id (track_blocks tracks ++ others)) }
    {
        self.ledger.first_free()
    }
}
