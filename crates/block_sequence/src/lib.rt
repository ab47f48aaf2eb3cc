//! The sound of one clip: a sequence of block references that is half full, and `fuse`, which says how the pieces
//! of a clip are laid out in blocks, some kept and some new.
//!
//! The layers above use `fuse`'s clauses `samples`, `half_full` and `rule`, and the sequence's `samples`, by which
//! its calls mean take, drop and length. Nothing is read or written here: blocks are named and never opened, and the
//! new ones have no ids yet.
#![tactic(auto)]

mod cutting;
mod fusing;
mod laid_rows;
mod parts;
mod row_appends;
mod row_edges;
mod row_fronts;
mod row_lists;
mod row_pieces;
mod row_splices;
mod rows;
mod seq;
mod types;

pub use fusing::fuse;
pub use laid_rows::RowList;
pub use parts::{part_of, piece_len};
pub use row_lists::row_size;
pub use rows::{ROW_MOST, Row};
pub use seq::Sequence;
pub use types::{Laid, Pieces};
