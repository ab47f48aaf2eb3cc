// Projects on disks in memory, as they are made and opened, and what is found of them in the end.
ghost use Rattle.std.specs.Prelude.{◌≡◌, IfOk, None, []};
ghost use Rattle.editor_core.specs.Core.{core_of};
ghost use Rattle.editor_state.specs.Studios.{IsStudio};
ghost use Rattle.pin_turn.specs.Calls.{known};
ghost use Rattle.studio_seats.specs.Desks.{IsAt, start_at};
ghost use Rattle.seat_examples.specs.Jobs.{IsReady};

use disk_model::Store;
use editor_core::Studio;
use editor_recovery::{check, create, open_store};
use memory_disk::RamStore;
use pcm_base::{Cell, Numbers};
use seat_examples::{RamDesk, RamSeat, Session, begin};
use std::alloc::Global;
use std::process::Abort;
use std::sync::Wait;
use std::test::*;
use studio_seats::Desk;

/// A new project: 8,000 frames a second, blocks of at most 4 samples, 6 points.
pub(crate) fn fresh(alloc: Global) -> Result<RamStore, Fail> {
    let fails = Numbers::new(Vec::new(alloc));
    let mut store = RamStore::new(alloc, 1024, 1_048_576, 65_536, fails)?;
    match create(alloc, &mut store, 8000, 4, 6) {
        Ok(_) => Ok(store),
        Err(_) => Err("no project".into()),
    }
}

pub(crate) fn opened(alloc: Global, store: RamStore) -> Result<Studio<RamStore>, Fail>
    ensures studio { IfOk result (λ s. IsStudio (⟦<RamStore as Store>⟧) (core_of s)) }
    ensures going { IfOk result (λ s. (core_of s).stopped ≡ None) }
{
    match open_store(alloc, store) {
        Ok(studio) => Ok(studio),
        Err(_) => Err("not opened".into()),
    }
}

/// A desk with the project of a disk, its first seat, and a session that has begun.
pub(crate) fn seated<R: Wait>(
    rt: &R,
    alloc: Global,
    store: RamStore,
) -> Result<(RamDesk, RamSeat, Session), Fail>
    ensures at { IfOk result (λ d. IsAt d.0 d.1) }
    ensures first { IfOk result (λ d. ((known d.1).number ≡ 0) × ((known d.1).away ≡ [])) }
    ensures ready { IfOk result (λ d. IsReady d.2 (start_at d.0).commit_number (known d.1).seen) }
{
    let Ok((desk, mut seat)) = Desk::new(alloc, opened(alloc, store)?) else {
        return Err("no memory for the desk".into());
    };
    match begin(rt, alloc, &desk, &mut seat) {
        Ok(session) => Ok((desk, seat, session)),
        Err(_) => {
            let _studio = desk.close(seat);
            Err("not begun".into())
        }
    }
}

/// The blocks that points name are whole, and once all is reclaimed the disk has the journal and their files, and no
/// others.
pub(crate) fn has_named_files(
    rt: &impl Abort,
    alloc: Global,
    mut studio: Studio<RamStore>,
) -> Result<(), Fail>
    requires studio { IsStudio (⟦<RamStore as Store>⟧) (core_of studio) }
    requires going { (core_of studio).stopped ≡ None }
{
    assert!(rt; check(alloc, &mut studio).is_ok());
    assert!(rt; studio.reclaim(None).is_ok());
    let mut named = Vec::new(alloc);
    named.push(0)?;
    for block in &studio.named_blocks(alloc)? {
        named.push(block.id)?;
    }
    let mut files = Vec::new(alloc);
    let mut store = studio.into_store();
    assert!(rt; store.files(&mut files).is_ok());
    assert!(rt; files.as_slice() == named.as_slice());
    Ok(())
}

/// How many pieces these cells are, where they are those of a recording, in their order.
pub(crate) fn pieces_in(cells: &[Cell]) -> Option<u64> {
    let mut count = 0i16;
    for piece in cells.chunks(3) {
        let [Cell::Sample(first), Cell::Sample(1000), Cell::Sample(2000)] = piece else {
            return None;
        };
        if *first != count {
            return None;
        }
        count = count.wrapping_add(1);
    }
    u64::try_from(count).ok()
}

/// How many ramps of six samples stand in front of the samples of the mix.
pub(crate) fn ramps_in(cells: &[Cell]) -> Option<u64> {
    let mut count = 0u64;
    for ramp in cells.chunks(6) {
        match ramp {
            [
                Cell::Sample(7),
                Cell::Sample(8),
                Cell::Sample(9),
                Cell::Sample(10),
                Cell::Sample(11),
                Cell::Sample(12),
            ] => count = count.wrapping_add(1),
            [
                Cell::Sample(100),
                Cell::Sample(200),
                Cell::Sample(300),
                Cell::Sample(400),
                Cell::Sample(500),
            ] => return Some(count),
            _ => return None,
        }
    }
    None
}

/// How many of these cells a track has.
fn shown<'a>(
    studio: &mut Studio<RamStore>,
    track: u64,
    cells: &'a mut [Cell; 96],
) -> Result<&'a [Cell], Fail>
    requires { IsStudio (⟦<RamStore as Store>⟧) (core_of studio.old) }
    ensures studio { IsStudio (⟦<RamStore as Store>⟧) (core_of studio.new) }
{
    match studio.show(track, 0, 96, cells) {
        Ok(count) => Ok(&cells[..count]),
        Err(_) => Err("not shown".into()),
    }
}

/// What commits there are after those of the beginning: how many ramps in track 1, and how many pieces in track 2.
pub(crate) fn commits_in(studio: &mut Studio<RamStore>) -> Result<[u64; 2], Fail>
    requires { IsStudio (⟦<RamStore as Store>⟧) (core_of studio.old) }
    ensures studio { IsStudio (⟦<RamStore as Store>⟧) (core_of studio.new) }
{
    let mut cells = [Cell::Gap; 96];
    let ramps = ramps_in(shown(studio, 1, &mut cells)?).ok_or("other ramps")?;
    let pieces = pieces_in(shown(studio, 2, &mut cells)?).ok_or("other pieces")?;
    Ok([ramps, pieces])
}
