// The text of a journal that has the history in its header.
ghost use Rattle.std.specs.Prelude.{◌≡◌, ◌+◌, ◌≤◌, ◌<◌, ◌^◌, ◌∷◌, ◌++◌, [], drop, length, IfOk};
ghost use Rattle.std.specs.Prelude.{IfSome, OnOk};
ghost use Rattle.std.specs.List.{flat_map};
ghost use Rattle.pcm_base.specs.declared.limits.TheConstants.{COUNTER_LIMIT, MAX_DEPTH};
ghost use Rattle.pcm_base.specs.History.{IsHistory};
ghost use Rattle.project_journal.specs.Journal.{points_size};
ghost use Rattle.project_journal.specs.Packing.{AreShort, header_row, sized};
ghost use Rattle.record_body.specs.Saved.{point_bytes};
ghost use Rattle.editor_core.specs.Core.{core_of};
ghost use Rattle.editor_state.specs.Packing.{packed_base, packed_log, packed_size, packed_text, points_in};

use super::studio::Studio;
use byteorder::{ByteOrder, LittleEndian};
use disk_model::Store;
use pcm_base::NoMemory;
use project_journal::{Base, write_header};
use project_state::Point;
use record_body::{point_len, write_point};
use std::alloc::Global;
use undo_history::History;

// How many bytes the numbers of a header have, without its gate.
const NUMBERS: usize = 63;

// How many bytes tell the length of a point.
const LENGTH: usize = 4;

// The greatest length that they tell.
const LONGEST: usize = 4_294_967_295;

// How many bytes the points have, each after its length; none where a point is longer than a header can tell.
fn points_len(history: &History<Point>) -> Option<usize>
    requires { length history.now.history.points ≤ MAX_DEPTH }
    ensures value { IfSome result (λ len. len ≡ points_size (points_in history.now.history)) }
    ensures short { IfSome result (λ len. AreShort (points_in history.now.history)) }
    ensures few { IfSome result (λ len. len ≤ 2 ^ 49) }
{
    let mut len = 0;
    for i in 0..history.len() {
        let size = point_len(history.point(i));
        if size > LONGEST {
            return None;
        }
        len += LENGTH + size;
    }
    Some(len)
}

// A point after its length, which is this.
fn write_sized(point: &Point, tag: u64, len: usize, out: &mut [u8])
    requires len { len ≡ length (point_bytes (point.now, tag)) }
    requires short { len < 2 ^ 32 }
    requires room { length out.old ≡ 4 + len }
    ensures { out.new ≡ sized (point_bytes (point.now, tag)) }
{
    LittleEndian::write_u32(out, len as u32);
    write_point(point, tag, &mut out[LENGTH..]);
}

// The points, each after its length.
fn write_points(history: &History<Point>, out: &mut [u8])
    requires short { AreShort (points_in history.now.history) }
    requires room { length out.old ≡ points_size (points_in history.now.history) }
    ensures { out.new ≡ flat_map sized (points_in history.now.history) }
{
    let mut at = 0;
    for i in 0..history.len() {
        let point = history.point(i);
        let len = point_len(point);
        let end = at + LENGTH + len;
        write_sized(point, history.tag(i), len, &mut out[at..end]);
        at = end;
    }
}

impl<S: Store> Studio<S> {
    // The numbers of the header.
    fn packed_base(&self) -> Base
        requires few { length self.now.history.history.points ≤ MAX_DEPTH }
        requires later { self.now.generation < COUNTER_LIMIT }
        ensures base { result ≡ packed_base (core_of self.now) }
        ensures whole { IsHistory self.now.history.history }
    {
        Base {
            generation: self.generation + 1,
            commit: self.commit_number,
            next_block: self.next_block,
            next_track: self.next_track,
            count: self.history.len() as u32,
            cursor: self.history.cursor() as u32,
        }
    }

    // The header, but for its gate.
    fn write_packed(&self, out: &mut [u8])
        requires few { length self.now.history.history.points ≤ MAX_DEPTH }
        requires later { self.now.generation < COUNTER_LIMIT }
        requires short { AreShort (points_in self.now.history.history) }
        requires room { length out.old ≡ 63 + points_size (points_in self.now.history.history) }
        ensures header { out.new ≡ header_row (packed_log (core_of self.now)) }
        ensures whole { IsHistory self.now.history.history }
        ensures rate { self.now.rate < 2 ^ 32 }
    {
        let base = self.packed_base();
        let depth = self.history.depth();
        write_header(
            self.rate,
            self.buffers.block_size(),
            depth,
            base,
            &mut out[..NUMBERS],
        );
        write_points(&self.history, &mut out[NUMBERS..]);
    }

    // The header, but for its gate, before the gate of the first record, which is there.
    fn write_text(&self, out: &mut [u8])
        requires few { length self.now.history.history.points ≤ MAX_DEPTH }
        requires later { self.now.generation < COUNTER_LIMIT }
        requires short { AreShort (points_in self.now.history.history) }
        requires room { length out.old ≡ 64 + points_size (points_in self.now.history.history) }
        requires last { drop (63 + points_size (points_in self.now.history.history)) out.old ≡ 0 ∷ [] }
        ensures text { out.new ≡ packed_text (core_of self.now) }
        ensures whole { IsHistory self.now.history.history }
        ensures rate { self.now.rate < 2 ^ 32 }
    {
        let end = out.len() - 1;
        self.write_packed(&mut out[..end]);
    }

    // The header, but for its gate, and the gate of the first record. A point that is longer than a header can tell
    // counts as want of memory: a record has no such point.
    pub(crate) fn packed_text(&self, alloc: Global) -> Result<Vec<u8>, NoMemory>
        requires few { length self.now.history.history.points ≤ MAX_DEPTH }
        requires later { self.now.generation < COUNTER_LIMIT }
        ensures text { IfOk result (λ text. text.items ≡ packed_text (core_of self.now)) }
        ensures size { IfOk result (λ text. 1 + length text.items ≡ packed_size (core_of self.now)) }
        ensures most { IfOk result (λ text. 1 + length text.items ≤ 2 ^ 50) }
        ensures short { OnOk result (AreShort (points_in self.now.history.history)) }
        ensures whole { OnOk result (IsHistory self.now.history.history) }
        ensures rate { OnOk result (self.now.rate < 2 ^ 32) }
    {
        let Some(points) = points_len(&self.history) else {
            return Err(NoMemory);
        };
        let mut text = vec![in alloc; 0u8; NUMBERS + points + 1]?;
        self.write_text(text.as_mut_slice());
        Ok(text)
    }
}
