// What is left of a layout after the cells that were passed.
ghost use Rattle.std.specs.Prelude.{ℕ, ◌≡◌, ◌≤◌, ◌<◌, ◌-◌, [], Contains, MatchOption};
ghost use Rattle.pcm_base.specs.Pieces.{Sources};
ghost use Rattle.pcm_base.specs.declared.block.BlockRef.{BlockRef};
ghost use Rattle.clip_track.specs.Items.{part_of_item};
ghost use Rattle.clip_track.specs.Rests.{stretch_item};
ghost use Rattle.envelope_view.specs.Ahead.{IsInBlock, ahead_blocks, ahead_cells, ahead_items};
ghost use Rattle.envelope_view.specs.Ahead.{stretch_blocks, stretch_len};
ghost use Rattle.envelope_view.specs.Kept.{HasItems};
ghost use Rattle.block_cache.specs.Caches.{Entries};

use clip_track::{Rest, Stretch};

/// What is left of a stretch, and of the layout after it.
#[derive(Drop)]
pub(crate) struct Ahead<'a> {
    pub(crate) stretch: Stretch,
    pub(crate) rest: Rest<'a>,
}

/// How many cells a stretch has.
pub(crate) fn len_of(stretch: Stretch) -> u64
    requires { IsInBlock stretch }
    ensures { result ≡ stretch_len stretch }
{
    match stretch {
        Stretch::Gaps { len } => len,
        Stretch::Block { block, from } => (block.len - from) as u64,
    }
}

/// What is left of a stretch after this many of its cells.
pub(crate) fn behind(stretch: Stretch, count: u64) -> Stretch
    requires stretch { IsInBlock stretch }
    requires within { count ≤ stretch_len stretch }
    ensures item { stretch_item result ≡ part_of_item count (stretch_len stretch - count) (stretch_item stretch) }
    ensures stretch { IsInBlock result }
    ensures blocks { stretch_blocks result ≡ stretch_blocks stretch }
{
    match stretch {
        Stretch::Gaps { len } => Stretch::Gaps { len: len - count },
        Stretch::Block { block, from } => Stretch::Block {
            block,
            from: from + count as u32,
        },
    }
}

impl<'a> Ahead<'a> {
    /// The stretch that is ahead, where a cell is left. The next one is entered where all of it was passed.
    pub(crate) fn next(&mut self) -> Option<Stretch>
        requires { IsInBlock self.old.stretch }
        ensures stretch { IsInBlock self.new.stretch }
        ensures found { MatchOption result ((src : Sources) → ahead_cells src self.new ≡ [])
            (λ s. (s ≡ self.new.stretch) × (0 < stretch_len s)) }
        ensures kept { (c : Entries) → (n : ℕ) → HasItems c 0 n (ahead_items self.old)
            → HasItems c 0 n (ahead_items self.new) }
        ensures cells { (src : Sources) → ahead_cells src self.new ≡ ahead_cells src self.old }
        ensures blocks { (b : BlockRef) → Contains (ahead_blocks self.new) b → Contains (ahead_blocks self.old) b }
    {
        if len_of(self.stretch) > 0 {
            return Some(self.stretch);
        }
        match self.rest.next() {
            Some(stretch) => {
                self.stretch = stretch;
                Some(stretch)
            }
            None => None,
        }
    }
}
