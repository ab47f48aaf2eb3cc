// The project that the header of a journal brings.
ghost use Rattle.std.specs.Prelude.{◌≡◌, ◌+◌, ◌≤◌, ◌<◌, ◌∷◌, ◌++◌, [], IfOk, OnOk, IsErrOf, MatchResult, List, ℕ};
ghost use Rattle.std.specs.Prelude.{length};
ghost use Rattle.pcm_base.specs.declared.limits.TheConstants.{COUNTER_LIMIT};
ghost use Rattle.pcm_base.specs.History.{history_of_one};
ghost use Rattle.disk_model.specs.Frames.{Kept as IsKept};
ghost use Rattle.project_journal.specs.Answer.{Causes};
ghost use Rattle.project_journal.specs.Reader.{IsHeading, IsPlaced};
ghost use Rattle.project_state.specs.Numbers.{AreUnnumbered, unnumbered_history};
ghost use Rattle.layout_uses.specs.Drawing.{IsNumbered};
ghost use Rattle.journal_replay.specs.Bases.{point_before};
ghost use Rattle.journal_replay.specs.Heads.{BringsPoints, DrawsFew, ReadsOn, ReadsPoint, TakesPoint};

use disk_model::Store;
use layout_uses::Numbered;
use project_journal::{Base, Damaged, JournalFault, Next, Reader};
use project_state::Point;
use record_body::{BadBody, Before, read_point};
use std::alloc::Global;

/// A fault of a field, reported of the journal's file.
pub(crate) fn in_journal(file: u64, fault: Damaged) -> JournalFault
    ensures { result ≡ JournalFault.Damaged file fault.at fault.want fault.have }
{
    JournalFault::Damaged {
        file,
        at: fault.at,
        want: fault.want,
        have: fault.have,
    }
}

/// What bounds the point of a header that stands at this place.
fn before_point(base: Base, at: u64) -> Before
    ensures { result ≡ point_before base at }
{
    Before {
        at,
        next_block: base.next_block,
        next_track: base.next_track,
        commits: base.commit,
    }
}

/// What the point says that was met last.
fn read_last(alloc: Global, m: u32, reader: &Reader) -> Result<(Point, u64), JournalFault>
    requires { IsPlaced reader.now }
    ensures reads { ReadsPoint m reader.now result }
    ensures no_fault { IsErrOf result JournalFault.DiskFault → ⊥ }
{
    let (at, bytes) = reader.record();
    match read_point(alloc, bytes, m, before_point(reader.base(), at)) {
        Ok(point) => Ok(point),
        Err(BadBody::NoMemory) => Err(JournalFault::NoMemory),
        Err(BadBody::Damaged { fault }) => Err(in_journal(reader.file(), fault)),
    }
}

/// Reads one point of the header more.
fn take_point<S: Store>(
    alloc: Global,
    store: &mut S,
    reader: &mut Reader,
    m: u32,
) -> Result<(Point, u64), JournalFault>
    requires placed { IsPlaced reader.old }
    requires least { 1 ≤ reader.old.at }
    ensures takes { (points : List (List ℕ)) → IsHeading S.Store store.old reader.old points
        → length points < reader.old.base.count → TakesPoint S.Store store.new m reader.new points result }
    ensures later { ReadsOn reader.old reader.new result }
    ensures cause { Causes S.Store store.old store.new result }
    ensures kept { IsKept S.Store store.old store.new }
{
    let next = reader.next_point(store)?;
    match next {
        Next::Whole(_len) => read_last(alloc, m, reader),
        Next::Early(fault) => Err(in_journal(reader.file(), fault)),
        Next::Shut => Err(JournalFault::NoMemory),
    }
}

/// A history of one point of a header, whose layouts get their numbers.
fn first_point(alloc: Global, point: &Point, tag: u64, depth: u32) -> Result<Numbered, JournalFault>
    requires depth { 1 ≤ depth }
    requires plain { AreUnnumbered point.now }
    ensures same { MatchResult result
        (λ n. unnumbered_history n.history.history ≡ history_of_one point.now tag depth)
        (λ e. e ≡ JournalFault.NoMemory) }
    ensures numbered { IfOk result (λ n. IsNumbered n.history.history n.next) }
    ensures most { IfOk result (λ n. n.next ≤ 1 + length point.now) }
{
    match Numbered::new(alloc, point, tag, depth) {
        Ok(numbered) => Ok(numbered),
        Err(_) => Err(JournalFault::NoMemory),
    }
}

/// Adds a point of a header after all others, whose layouts get their numbers.
fn add_point(
    alloc: Global,
    numbered: &mut Numbered,
    point: &Point,
    tag: u64,
) -> Result<(), JournalFault>
    requires room { length numbered.old.history.history.points < numbered.old.history.history.depth }
    requires next { numbered.old.next ≤ COUNTER_LIMIT }
    requires numbered { IsNumbered numbered.old.history.history numbered.old.next }
    requires plain { AreUnnumbered point.now }
    ensures same { MatchResult result (λ _. unnumbered_history numbered.new.history.history
        ≡ record (unnumbered_history numbered.old.history.history) {
          points = (unnumbered_history numbered.old.history.history).points ++ (point.now, tag) ∷ [];
        }) (λ e. e ≡ JournalFault.NoMemory) }
    ensures numbered { OnOk result (IsNumbered numbered.new.history.history numbered.new.next) }
    ensures most { OnOk result (numbered.new.next ≤ numbered.old.next + length point.now) }
{
    match numbered.add_last(alloc, point, tag) {
        Ok(()) => Ok(()),
        Err(_) => Err(JournalFault::NoMemory),
    }
}

/// The points of a header that has some, the one current that it says. Their layouts have numbers, each point by the
/// one before it.
pub(crate) fn read_points<S: Store>(
    alloc: Global,
    store: &mut S,
    reader: &mut Reader,
    m: u32,
) -> Result<Numbered, JournalFault>
    requires heading { IsHeading S.Store store.old reader.old [] }
    requires some { 1 ≤ reader.old.base.count }
    requires size { m ≡ reader.old.block_size }
    ensures brings { BringsPoints S.Store store.new m reader.new result }
    ensures numbered { IfOk result (λ n. IsNumbered n.history.history n.next) }
    ensures few { IfOk result (λ n. DrawsFew n.next reader.new) }
    ensures later { ReadsOn reader.old reader.new result }
    ensures cause { Causes S.Store store.old store.new result }
    ensures kept { IsKept S.Store store.old store.new }
{
    let base = reader.base();
    let (point, tag) = take_point(alloc, store, reader, m)?;
    let mut numbered = first_point(alloc, &point, tag, reader.depth())?;
    for _ in 1..base.count {
        let (point, tag) = take_point(alloc, store, reader, m)?;
        add_point(alloc, &mut numbered, &point, tag)?;
    }
    numbered.history.go_to(base.cursor as usize);
    Ok(numbered)
}
