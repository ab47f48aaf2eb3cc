// Each sample of a strip changed.
ghost use Rattle.std.specs.Prelude.{◌≡◌, map, IfOk};
ghost use Rattle.pcm_base.specs.Pieces.{IsValid};
ghost use Rattle.clip_track.specs.Items.{AreItems, IsItem, strip_len};
ghost use Rattle.edit_ops.specs.Changes.{piece_change, item_change};

use block_sequence::piece_len;
use clip_track::{Item, Strip};
use pcm_base::{NoMemory, Piece};
use std::alloc::{AllocError, Global};

/// What becomes of each sample.
#[derive(Clone, Copy, Debug)]
pub enum Change {
    /// It becomes 0.
    Silence,
    /// It is scaled by a gain.
    Gain { gain: u32 },
}

fn change_piece(piece: Piece, change: Change) -> Piece
    requires { IsValid piece }
    ensures { result ≡ piece_change change piece }
{
    match change {
        Change::Silence => Piece::Zero {
            len: piece_len(piece),
        },
        Change::Gain { gain } => match piece {
            Piece::Old { block, from, to } => Piece::Scaled {
                block,
                from,
                to,
                gain,
            },
            other => other,
        },
    }
}

fn change_item(item: Item, change: Change) -> Item
    requires { IsItem item }
    ensures { result ≡ item_change change item }
{
    match item {
        Item::Gap { len } => Item::Gap { len },
        Item::Sound { piece } => Item::Sound {
            piece: change_piece(piece, change),
        },
    }
}

#[tactic(auto, using(std::proofs::lemmas::Grind::common_steps, crate::proofs::ChangedItems::item_ok_at))]
fn change_items(alloc: Global, items: &[Item], change: Change) -> Result<Vec<Item>, AllocError>
    requires { AreItems items.now }
    ensures { IfOk result (λ v. v.items ≡ map (item_change change) items.now) }
{
    let mut out = Vec::new(alloc);
    for item in items {
        out.push(change_item(*item, change))?;
    }
    Ok(out)
}

/// The strip with each sample changed.
pub fn change_strip(alloc: Global, strip: &Strip, change: Change) -> Result<Strip, NoMemory>
    ensures items { IfOk result (λ s. s ≡ map (item_change change) strip.now) }
    ensures len { IfOk result (λ s. strip_len s ≡ strip_len strip.now) }
{
    let items = change_items(alloc, strip.as_slice(), change)?;
    Ok(Strip::from_items(items))
}
