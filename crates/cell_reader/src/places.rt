// Where places of a track stand in a view.
ghost use Rattle.std.specs.Prelude.{◌≡◌, ◌≤◌, ◌<◌, ◌+◌, ◌^◌, length, replicate};
ghost use Rattle.pcm_base.specs.declared.sound.Cell.TheVariants.{Gap};
ghost use Rattle.cell_reader.specs.Seen.{place_in as place, Puts};

use super::forms::FromCell;

/// The cells of a track from one place up to another.
#[derive(Clone, Copy)]
pub(crate) struct View {
    pub(crate) from: u64,
    pub(crate) to: u64,
}

/// How many cells of a view lie before a place.
pub(crate) fn place_in(view: View, at: u64) -> usize
    ensures { result ≡ place view at }
{
    at.min(view.to).saturating_sub(view.from) as usize
}

/// Makes gaps of all.
pub(crate) fn fill_gaps<T: FromCell>(out: &mut [T])
    ensures { out.new ≡ replicate (length out.old) (T.made Gap) }
{
    for i in 0..out.len() {
        out[i] = T::gap();
    }
}

/// Puts the gaps from one place to another where the view has them.
pub(crate) fn put_gap<T: FromCell>(view: View, at: u64, len: u64, out: &mut [T])
    requires size { view.from + length out.old ≡ view.to }
    requires few { at + len < 2 ^ 64 }
    ensures { Puts T.made view at (replicate len Gap) out.old out.new }
{
    let start = place_in(view, at);
    let end = place_in(view, at + len);
    fill_gaps(&mut out[start..end]);
}
