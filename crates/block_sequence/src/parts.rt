// One piece: its length, and parts of it.
ghost use Rattle.std.specs.Prelude.{◌≡◌, ◌+◌, ◌≤◌};
ghost use Rattle.pcm_base.specs.Pieces as pieces;

use pcm_base::Piece;

/// How many samples a piece has.
pub fn piece_len(piece: Piece) -> u64
    requires { pieces.IsValid piece }
    ensures { result ≡ pieces.piece_len piece }
{
    match piece {
        Piece::Old { block: _, from, to } => (to - from) as u64,
        Piece::Scaled {
            block: _,
            from,
            to,
            gain: _,
        } => (to - from) as u64,
        Piece::Zero { len } => len,
        Piece::Given { from, to } => to - from,
    }
}

/// `n` samples of a piece, from `skip` samples after its first on.
pub fn part_of(piece: Piece, skip: u64, n: u64) -> Piece
    requires valid { pieces.IsValid piece }
    requires within { skip + n ≤ pieces.piece_len piece }
    ensures { result ≡ pieces.part_of skip n piece }
{
    match piece {
        Piece::Old { block, from, to: _ } => Piece::Old {
            block,
            from: from + skip as u32,
            to: from + skip as u32 + n as u32,
        },
        Piece::Scaled {
            block,
            from,
            to: _,
            gain,
        } => Piece::Scaled {
            block,
            from: from + skip as u32,
            to: from + skip as u32 + n as u32,
            gain,
        },
        Piece::Zero { len: _ } => Piece::Zero { len: n },
        Piece::Given { from, to: _ } => Piece::Given {
            from: from + skip,
            to: from + skip + n,
        },
    }
}
