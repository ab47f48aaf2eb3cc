// Gaps and pieces, one after another.
ghost use Rattle.std.specs.Prelude.{◌≡◌, ℕ, ◌+◌, ◌-◌, ◌<◌, ◌≤◌, ◌^◌, ◌++◌, [], ◌∷◌, length, take, drop, map, min};
ghost use Rattle.std.specs.Prelude.{replicate, OnOk, OnErr};
ghost use Rattle.pcm_base.specs.Pieces.{Sources, piece_len, samples_of, Fits};
ghost use Rattle.pcm_base.specs.declared.sound.Cell.TheVariants as cell;
ghost use Rattle.clip_track.specs.Items as strip;

use block_sequence::{part_of, piece_len};
use pcm_base::Piece;
use std::alloc::{AllocError, Global};
use std::marker::Model;

/// What a strip is made of.
#[derive(Clone, Copy, Debug)]
pub enum Item {
    /// `len` gaps.
    Gap { len: u64 },
    /// The samples of a piece.
    Sound { piece: Piece },
}

/// Gaps and pieces of sound in order, none of them empty, fewer than 2^64 cells in all. Contracts see them as a list.
#[derive(Drop)]
pub struct Strip {
    items: Vec<Item>,
    len: u64,
}

impl Model for Strip {
    ghost use Rattle.std.specs.Prelude.{List};
    ghost use Rattle.clip_track.specs.declared.items.Item.{Item};

    ghost Value = { List Item };

    ghost use Rattle.clip_track.specs.Items.{IsStrip};

    ghost view = { λ s. s.items.items };

    ghost invariant = { λ s. IsStrip s.items.items s.len };
}

pub(crate) fn item_len(item: Item) -> u64
    requires { strip.IsItem item }
    ensures { result ≡ strip.item_len item }
{
    match item {
        Item::Gap { len } => len,
        Item::Sound { piece } => piece_len(piece),
    }
}

pub(crate) fn part_of_item(item: Item, skip: u64, n: u64) -> Item
    requires ok { strip.IsItem item }
    requires within { skip + n ≤ strip.item_len item }
    ensures { result ≡ strip.part_of_item skip n item }
{
    match item {
        Item::Gap { len: _ } => Item::Gap { len: n },
        Item::Sound { piece } => Item::Sound {
            piece: part_of(piece, skip, n),
        },
    }
}

#[tactic(auto, using(crate::proofs::Strips::item_at))]
fn append_items(out: &mut Vec<Item>, items: &[Item], skip: u64, n: u64) -> Result<(), AllocError>
    requires { strip.AreItems items.now }
    ensures items { OnOk result (out.new.items ≡ out.old.items ++ strip.part_items skip n items.now) }
    ensures kept { OnErr result (take (length out.old.items) out.new.items ≡ out.old.items) }
{
    let mut skip = skip;
    let mut left = n;
    for item in items {
        if left > 0 {
            let len = item_len(*item);
            if len <= skip {
                skip -= len;
            } else {
                let size = left.min(len - skip);
                out.push(part_of_item(*item, skip, size))?;
                skip = 0;
                left -= size;
            }
        }
    }
    Ok(())
}

/// The same, but where memory runs out what was added is taken off again.
fn append_all_items(
    out: &mut Vec<Item>,
    items: &[Item],
    skip: u64,
    n: u64,
) -> Result<(), AllocError>
    requires { strip.AreItems items.now }
    ensures items { OnOk result (out.new.items ≡ out.old.items ++ strip.part_items skip n items.now) }
    ensures unchanged { OnErr result (out.new.items ≡ out.old.items) }
{
    let len = out.len();
    match append_items(out, items, skip, n) {
        Ok(()) => Ok(()),
        Err(error) => {
            out.truncate(len);
            Err(error)
        }
    }
}

/// Adds `n` cells of some items, after `skip` of them, or as many as there are.
///
/// # Errors
///
/// There is no memory for what is added, and nothing is.
pub fn append_part(out: &mut Vec<Item>, items: &[Item], skip: u64, n: u64) -> Result<(), AllocError>
    requires ok { strip.AreItems items.now }
    requires old_ok { strip.AreItems out.old.items }
    ensures items { OnOk result (out.new.items ≡ out.old.items ++ strip.part_items skip n items.now) }
    ensures ok { OnOk result (strip.AreItems out.new.items) }
    ensures len { OnOk result
        (strip.strip_len out.new.items ≡ strip.strip_len out.old.items + min n (strip.strip_len items.now - skip)) }
    ensures fit { OnOk result
        ((m : ℕ) → strip.ItemsFit m out.old.items → strip.ItemsFit m items.now → strip.ItemsFit m out.new.items) }
    ensures cells { OnOk result ((src : Sources) → strip.strip_cells src out.new.items
        ≡ strip.strip_cells src out.old.items ++ take n (drop skip (strip.strip_cells src items.now))) }
    ensures unchanged { OnErr result (out.new.items ≡ out.old.items) }
{
    append_all_items(out, items, skip, n)
}

impl Strip {
    /// The strip of no cells. It takes no memory.
    pub fn new(alloc: Global) -> Strip
        ensures { result ≡ [] }
    {
        Strip {
            items: Vec::new(alloc),
            len: 0,
        }
    }

    /// How many cells there are.
    pub fn len(&self) -> u64
        ensures { result ≡ strip.strip_len self.now }
    {
        self.len
    }
}

/// Adds a gap of `n` cells, and nothing where `n` is 0. After an error nothing is added.
pub fn push_gap(out: &mut Vec<Item>, n: u64) -> Result<(), AllocError>
    ensures items { OnOk result (out.new.items ≡ out.old.items ++ strip.gap_items n) }
    ensures unchanged { OnErr result (out.new.items ≡ out.old.items) }
{
    if n > 0 {
        out.push(Item::Gap { len: n })?;
    }
    Ok(())
}

/// Adds `n` gaps.
///
/// # Errors
///
/// There is no memory for what is added, and nothing is.
pub fn append_gap(out: &mut Vec<Item>, n: u64) -> Result<(), AllocError>
    requires old_ok { strip.AreItems out.old.items }
    ensures items { OnOk result (out.new.items ≡ out.old.items ++ strip.gap_items n) }
    ensures ok { OnOk result (strip.AreItems out.new.items) }
    ensures len { OnOk result (strip.strip_len out.new.items ≡ strip.strip_len out.old.items + n) }
    ensures fit { OnOk result ((m : ℕ) → strip.ItemsFit m out.old.items → strip.ItemsFit m out.new.items) }
    ensures cells { OnOk result ((src : Sources)
        → strip.strip_cells src out.new.items ≡ strip.strip_cells src out.old.items ++ replicate n cell.Gap) }
    ensures unchanged { OnErr result (out.new.items ≡ out.old.items) }
{
    push_gap(out, n)
}

/// Adds a piece of sound.
///
/// # Errors
///
/// There is no memory for what is added, and nothing is.
pub fn append_piece(out: &mut Vec<Item>, piece: Piece) -> Result<(), AllocError>
    requires old_ok { strip.AreItems out.old.items }
    requires ok { strip.IsItem (Item.Sound piece) }
    ensures items { OnOk result (out.new.items ≡ out.old.items ++ Item.Sound piece ∷ []) }
    ensures ok { OnOk result (strip.AreItems out.new.items) }
    ensures len { OnOk result (strip.strip_len out.new.items ≡ strip.strip_len out.old.items + piece_len piece) }
    ensures fit { OnOk result
        ((m : ℕ) → strip.ItemsFit m out.old.items → Fits m piece → strip.ItemsFit m out.new.items) }
    ensures cells { OnOk result ((src : Sources) → strip.strip_cells src out.new.items
        ≡ strip.strip_cells src out.old.items ++ map cell.Sample (samples_of src piece)) }
    ensures unchanged { OnErr result (out.new.items ≡ out.old.items) }
{
    push_piece(out, piece)
}

fn push_piece(out: &mut Vec<Item>, piece: Piece) -> Result<(), AllocError>
    ensures items { OnOk result (out.new.items ≡ out.old.items ++ Item.Sound piece ∷ []) }
    ensures unchanged { OnErr result (out.new.items ≡ out.old.items) }
{
    out.push(Item::Sound { piece })?;
    Ok(())
}

#[tactic(auto, using(crate::proofs::Strips::item_at, crate::proofs::Strips::len_next))]
fn total_len(items: &[Item]) -> u64
    requires ok { strip.AreItems items.now }
    requires room { strip.strip_len items.now < 2 ^ 64 }
    ensures { result ≡ strip.strip_len items.now }
{
    let mut len = 0;
    for item in items {
        len += item_len(*item);
    }
    len
}

impl Strip {
    /// The strip of some items, which are taken over as they are.
    pub fn from_items(items: Vec<Item>) -> Strip
        requires ok { strip.AreItems items.items }
        requires room { strip.strip_len items.items < 2 ^ 64 }
        ensures { result ≡ items.items }
    {
        let len = total_len(items.as_slice());
        Strip { items, len }
    }

    /// The items, in order.
    pub fn as_slice(&self) -> &[Item]
        ensures value { result.now ≡ self.now }
        ensures ok { strip.AreItems self.now }
        ensures small { strip.strip_len self.now < 2 ^ 64 }
    {
        self.items.as_slice()
    }

    /// The allocator that the strip was made with.
    pub fn allocator(&self) -> Global {
        *self.items.allocator()
    }
}
