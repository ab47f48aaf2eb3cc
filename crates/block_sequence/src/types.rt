// What a clip is laid out in.
use pcm_base::{BlockRef, Items, Piece};

/// Some pieces, one after another.
pub type Pieces = Items<Piece>;

/// What a clip is laid out in.
#[derive(Drop)]
pub enum Laid {
    /// A block that is kept, whole.
    Keep { block: BlockRef },
    /// A new block of `len` samples, those of the pieces.
    Make { pieces: Pieces, len: u32 },
}
