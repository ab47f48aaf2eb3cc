// Which blocks the clipboard names, counted.
ghost use Rattle.std.specs.Prelude.{◌≡◌, ◌+◌, ◌≤◌, ◌<◌, ◌^◌, ℕ, length, Some};
ghost use Rattle.pcm_base.specs.declared.limits.TheConstants.{MAX_TRACKS};
ghost use Rattle.block_ledger.specs.Counts.{occurrences};
ghost use Rattle.row_ledger.specs.Lists.{counts_of, list_of, singles_of};
ghost use Rattle.layout_uses.specs.Tallies.{uses_of};
ghost use Rattle.clip_track.specs.Items.{item_blocks, strip_blocks};
ghost use Rattle.editor_tracks.specs.Copies.{blocks_in, strips_blocks};
ghost use Rattle.editor_core.specs.Core.{core_of};
ghost use Rattle.editor_state.specs.Occurrences.{AreSingle, HasIds, Moves, MovesSingles, Names, Unnames, times_named};
ghost use Rattle.editor_state.specs.Studios.{clip_blocks};

use super::studio::Studio;
use clip_track::{Item, Strip};
use disk_model::Store;
use edit_ops::Strips;
use layout_uses::{drop_blocks, hold_blocks};
use pcm_base::{BlockRef, Piece};
use row_ledger::RowLedger;

// The block that an item names, if any.
fn block_of(item: Item) -> Option<BlockRef>
    ensures { blocks_in result ≡ item_blocks item }
{
    match item {
        Item::Sound {
            piece: Piece::Old { block, .. } | Piece::Scaled { block, .. },
        } => Some(block),
        Item::Gap { .. } | Item::Sound { .. } => None,
    }
}

fn hold_item(ledger: &mut RowLedger, item: Item)
    requires there { HasIds (counts_of ledger.old) (item_blocks item) }
    requires few { (id : ℕ) → occurrences (counts_of ledger.old id) + times_named id (item_blocks item) < 2 ^ 128 }
    ensures { Names ledger.old ledger.new (item_blocks item) }
{
    if let Some(block) = block_of(item) {
        hold_blocks(ledger, &[block]);
    }
}

fn hold_items(ledger: &mut RowLedger, items: &[Item])
    requires there { HasIds (counts_of ledger.old) (strip_blocks items.now) }
    requires few { (id : ℕ) → occurrences (counts_of ledger.old id) + times_named id (strip_blocks items.now) < 2 ^ 128 }
    ensures { Names ledger.old ledger.new (strip_blocks items.now) }
{
    for item in items {
        hold_item(ledger, *item);
    }
}

fn hold_strips(ledger: &mut RowLedger, strips: &[Strip])
    requires there { HasIds (counts_of ledger.old) (strips_blocks strips.now) }
    requires room { (id : ℕ) → occurrences (counts_of ledger.old id) < 2 ^ 102 }
    requires few { length strips.now ≤ MAX_TRACKS }
    ensures held { Names ledger.old ledger.new (strips_blocks strips.now) }
    ensures most { length (strips_blocks strips.now) ≤ 2 ^ 71 }
{
    for strip in strips {
        hold_items(ledger, strip.as_slice());
    }
}

fn drop_item(ledger: &mut RowLedger, item: Item)
    requires { AreSingle ledger.old (item_blocks item) }
    ensures { Unnames ledger.old ledger.new (item_blocks item) }
{
    if let Some(block) = block_of(item) {
        drop_blocks(ledger, &[block]);
    }
}

fn drop_items(ledger: &mut RowLedger, items: &[Item])
    requires { AreSingle ledger.old (strip_blocks items.now) }
    ensures { Unnames ledger.old ledger.new (strip_blocks items.now) }
{
    for item in items {
        drop_item(ledger, *item);
    }
}

fn drop_strips(ledger: &mut RowLedger, strips: &[Strip])
    requires { AreSingle ledger.old (strips_blocks strips.now) }
    ensures { Unnames ledger.old ledger.new (strips_blocks strips.now) }
{
    for strip in strips {
        drop_items(ledger, strip.as_slice());
    }
}

fn drop_clip(ledger: &mut RowLedger, clip: &Option<Strips>)
    requires { AreSingle ledger.old (clip_blocks clip.now) }
    ensures { Unnames ledger.old ledger.new (clip_blocks clip.now) }
{
    if let Some(strips) = clip {
        drop_strips(ledger, strips.as_slice());
    }
}

// Other strips come in the place of those of the clipboard. They come first, so that no block that stays is ever
// counted as named by nothing.
fn count_clip(ledger: &mut RowLedger, old: &Option<Strips>, new: &Strips)
    requires there { HasIds (counts_of ledger.old) (strips_blocks new.now) }
    requires room { (id : ℕ) → occurrences (counts_of ledger.old id) < 2 ^ 102 }
    requires few { length new.now ≤ MAX_TRACKS }
    requires named { AreSingle ledger.old (clip_blocks old.now) }
    ensures moves { Moves (counts_of ledger.old) (counts_of ledger.new) (clip_blocks old.now) (strips_blocks new.now) }
    ensures singles { (id : ℕ) → singles_of ledger.new id + times_named id (clip_blocks old.now)
        ≡ singles_of ledger.old id + times_named id (strips_blocks new.now) }
    ensures lists { (n : ℕ) → list_of ledger.new n ≡ list_of ledger.old n }
    ensures most { length (strips_blocks new.now) ≤ 2 ^ 71 }
{
    hold_strips(ledger, new.as_slice());
    drop_clip(ledger, old);
}

impl<S: Store> Studio<S> {
    // Puts strips into the clipboard.
    pub(crate) fn take_clip(&mut self, strips: Strips)
        requires there { HasIds (counts_of self.old.tally.ledger) (strips_blocks strips) }
        requires room { (id : ℕ) → occurrences (counts_of self.old.tally.ledger id) < 2 ^ 102 }
        requires few { length strips ≤ MAX_TRACKS }
        requires named { AreSingle self.old.tally.ledger (clip_blocks self.old.clipboard) }
        ensures fields { core_of self.new ≡ record (core_of self.old) {
          clipboard = Some strips;
          uses = uses_of self.new.tally;
          counts = counts_of self.new.tally.ledger;
        } }
        ensures moves { Moves (counts_of self.old.tally.ledger) (counts_of self.new.tally.ledger)
            (clip_blocks self.old.clipboard) (strips_blocks strips) }
        ensures single { MovesSingles (uses_of self.old.tally) (uses_of self.new.tally)
            (clip_blocks self.old.clipboard) (strips_blocks strips) }
        ensures most { length (strips_blocks strips) ≤ 2 ^ 71 }
        ensures uses { self.new.tally.uses ≡ self.old.tally.uses }
    {
        count_clip(&mut self.tally.ledger, &self.clipboard, &strips);
        self.clipboard = Some(strips);
    }
}
