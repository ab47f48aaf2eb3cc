// A disk that is an image of another.
ghost use Rattle.std.specs.Prelude.{◌≡◌, ◌+◌, ◌≤◌, ◌<◌, ◌∷◌, [], ℕ, List, Option, None, false, length, take};
ghost use Rattle.std.specs.Prelude.{Contains, OnOk, IfOk};
ghost use Rattle.std.specs.List.Sorted.{IsStrictlyIncreasing};
ghost use Rattle.std.specs.Ordering.{nat_cmp};
ghost use Rattle.std.specs.BTreeSet.{contains};
ghost use Rattle.memory_disk.specs.History.{Step, reads_of};
ghost use Rattle.memory_disk.specs.Images.{IsUnnamed, image_of};
ghost use Rattle.memory_disk.specs.ByFile.{IsByFile};
ghost use Rattle.memory_disk.specs.Calls.{AllHeld, step_of, history_of, items_of};
ghost use Rattle.memory_disk.specs.Settled.{IsSettled, IsBuilt, SetsFile};

use crate::by_file::{by_file, file_calls};
use crate::call::{Call, Kind};
use crate::draws::Draws;
use crate::image::file_image;
use crate::record::{note_mark, note_write};
use pcm_base::COUNTER_LIMIT;
use std::alloc::{AllocError, Global};
use std::collections::BTreeSet;

// The calls and the bytes of a disk that is one that a stop may leave.
#[derive(Drop)]
pub(crate) struct Parts {
    pub(crate) calls: Vec<Call>,
    pub(crate) row: Vec<u8>,
}

pub(crate) fn build(
    alloc: Global,
    calls: &[Call],
    row: &[u8],
    choice: u64,
) -> Result<Parts, AllocError>
    requires { AllHeld (length row.now) calls.now }
    ensures held { IfOk result (λ p. AllHeld (length p.row.items) p.calls.items) }
    ensures image { IfOk result
        (λ p. reads_of (history_of p.row.items p.calls.items) ≡ image_of choice (history_of row.now calls.now)) }
    ensures settled { IfOk result (λ p. IsSettled (history_of p.row.items p.calls.items)) }
{
    let sorted = by_file(alloc, calls)?;
    let parts = build_sorted(alloc, &sorted, row, choice)?;
    Ok(parts)
}

// The same of calls that come file by file.
fn build_sorted(alloc: Global, calls: &[Call], row: &[u8], choice: u64) -> Result<Parts, AllocError>
    requires held { AllHeld (length row.now) calls.now }
    requires by_file { IsByFile calls.now }
    ensures held { IfOk result (λ p. AllHeld (length p.row.items) p.calls.items) }
    ensures image { IfOk result
        (λ p. reads_of (history_of p.row.items p.calls.items) ≡ image_of choice (history_of row.now calls.now)) }
    ensures settled { IfOk result (λ p. IsSettled (history_of p.row.items p.calls.items)) }
{
    let there = named(alloc, calls, row)?;
    let mut numbers = Vec::new(alloc);
    copy_numbers(&there, &mut numbers)?;
    let parts = build_all(alloc, calls, row, &numbers, choice)?;
    Ok(parts)
}

// Copies them, rising.
fn copy_numbers(there: &BTreeSet<u64>, out: &mut Vec<u64>) -> Result<(), AllocError>
    ensures items { OnOk result (out.new.items ≡ there.now.keys) }
    ensures rising { OnOk result (IsStrictlyIncreasing out.new.items) }
{
    out.clear();
    for file in there.iter() {
        out.push(*file)?;
    }
    Ok(())
}

// Builds these files, rising. No other has a draw.
fn build_all(
    alloc: Global,
    calls: &[Call],
    row: &[u8],
    numbers: &[u64],
    choice: u64,
) -> Result<Parts, AllocError>
    requires held { AllHeld (length row.now) calls.now }
    requires by_file { IsByFile calls.now }
    requires rising { IsStrictlyIncreasing numbers.now }
    requires others { (f : ℕ) → (Contains numbers.now f → ⊥) → IsUnnamed (history_of row.now calls.now) f }
    ensures held { IfOk result (λ p. AllHeld (length p.row.items) p.calls.items) }
    ensures built { IfOk result (λ p. IsBuilt numbers.now (length numbers.now)
        (image_of choice (history_of row.now calls.now)) (history_of p.row.items p.calls.items)) }
{
    let mut draws = Draws {
        choice,
        state: choice,
    };
    let mut new_calls = Vec::new(alloc);
    let mut new_row = Vec::new(alloc);
    for file in numbers {
        let own = file_calls(calls, *file);
        let content = file_image(alloc, own, row, *file, &mut draws)?;
        set_file(&mut new_calls, &mut new_row, *file, content)?;
    }
    Ok(Parts {
        calls: new_calls,
        row: new_row,
    })
}

// Makes the file so, on the disk.
fn set_file(
    calls: &mut Vec<Call>,
    row: &mut Vec<u8>,
    file: u64,
    content: Option<Vec<u8>>,
) -> Result<(), AllocError>
    requires { AllHeld (length row.old.items) calls.old.items }
    ensures held { OnOk result (AllHeld (length row.new.items) calls.new.items) }
    ensures sets { OnOk result (SetsFile file (items_of content) (history_of row.old.items calls.old.items)
        (history_of row.new.items calls.new.items)) }
{
    calls.reserve(3)?;
    match content {
        None => {
            note_mark(calls, row, Kind::Remove, file)?;
            note_mark(calls, row, Kind::Sync, file)?;
            Ok(())
        }
        Some(bytes) => {
            if bytes.len() as u64 > COUNTER_LIMIT {
                return Err(AllocError);
            }
            row.reserve(bytes.len())?;
            note_mark(calls, row, Kind::Remove, file)?;
            note_write(calls, row, file, 0, &bytes)?;
            note_mark(calls, row, Kind::Sync, file)?;
            Ok(())
        }
    }
}

// The files that some call wrote or removed. A stop leaves no other.
fn named(alloc: Global, calls: &[Call], row: &[u8]) -> Result<BTreeSet<u64>, AllocError>
    ensures { IfOk result (λ s. (f : ℕ) → contains nat_cmp s f ≡ false
        → IsUnnamed (history_of row.now calls.now) f × (reads_of (history_of row.now calls.now) f ≡ None)) }
{
    let mut there = BTreeSet::new(alloc);
    for call in calls {
        name_call(&mut there, call, row)?;
    }
    Ok(there)
}

fn name_call(there: &mut BTreeSet<u64>, call: &Call, row: &[u8]) -> Result<(), AllocError>
    ensures { OnOk result
        ((h : List Step) → ((f : ℕ) → contains nat_cmp there.old f ≡ false → IsUnnamed h f × (reads_of h f ≡ None))
        → (f : ℕ) → contains nat_cmp there.new f ≡ false
        → IsUnnamed (step_of row.now call.now ∷ h) f × (reads_of (step_of row.now call.now ∷ h) f ≡ None)) }
{
    match call.kind {
        Kind::Write => {
            there.insert(call.file)?;
            Ok(())
        }
        Kind::Sync => Ok(()),
        Kind::Remove => {
            there.insert(call.file)?;
            Ok(())
        }
    }
}
