// What a stop leaves of one file.
ghost use Rattle.std.specs.Prelude.{◌≡◌, ◌+◌, ◌≤◌, ◌∷◌, ℕ, List, length, take, drop, false, IsTrue, All, OnOk};
ghost use Rattle.std.specs.Prelude.{IfOk};
ghost use Rattle.pcm_base.specs.declared.limits.TheConstants.{COUNTER_LIMIT};
ghost use Rattle.memory_disk.specs.History.{Step, reads_of};
ghost use Rattle.memory_disk.specs.Images.{IsLeft, IsAtSync, left_by_write, grown, laid};
ghost use Rattle.memory_disk.specs.Calls.{Held, AllHeld, IsNoSync, step_of, history_on, history_of, items_of};

use crate::call::{Call, Kind};
use crate::draws::Draws;
use crate::overlay::copy_in;
use crate::replay::{bytes_in, content_of};
use std::alloc::{AllocError, Global};

// Makes it so long at least, if wanted.
fn grow(file: &mut Vec<u8>, end: usize, wanted: bool) -> Result<(), AllocError>
    ensures { OnOk result (file.new.items ≡ grown wanted file.old.items end) }
{
    if wanted && file.len() < end {
        file.resize(end, 0)?;
    }
    Ok(())
}

// Copies the bytes that lie in the file, if wanted.
fn lay(file: &mut Vec<u8>, at: usize, bytes: &[u8], wanted: bool)
    ensures { file.new.items ≡ laid wanted file.old.items at bytes.now }
{
    if wanted && at <= file.len() {
        copy_in(file, at, bytes);
    }
}

// A write to a file that may be absent.
fn leave_write(
    alloc: Global,
    image: Option<Vec<u8>>,
    at: u64,
    bytes: &[u8],
    bytes_taken: bool,
    length_taken: bool,
) -> Result<Option<Vec<u8>>, AllocError>
    requires { at + length bytes.now ≤ COUNTER_LIMIT }
    ensures { IfOk result (λ x. items_of x ≡ left_by_write bytes_taken length_taken (items_of image) at bytes.now) }
{
    if !bytes_taken && !length_taken {
        return Ok(image);
    }
    let mut file = image.unwrap_or(Vec::new(alloc));
    grow(&mut file, at as usize + bytes.len(), length_taken)?;
    lay(&mut file, at as usize, bytes, bytes_taken);
    Ok(Some(file))
}

// Goes on by one call, which is pending where it is of this file.
fn leave_call(
    alloc: Global,
    call: &Call,
    row: &[u8],
    file: u64,
    image: Option<Vec<u8>>,
    draws: &mut Draws,
) -> Result<Option<Vec<u8>>, AllocError>
    requires held { Held (length row.now) call.now }
    requires pending { IsNoSync file call.now }
    ensures left { (h : List Step) (start : ℕ) → IsLeft draws.old.choice file h start (items_of image) draws.old.state
        → IfOk result
        (λ x. IsLeft draws.old.choice file (step_of row.now call.now ∷ h) start (items_of x) draws.new.state) }
    ensures choice { draws.new.choice ≡ draws.old.choice }
{
    if call.file != file {
        return Ok(image);
    }
    match call.kind {
        Kind::Write => {
            let bytes_taken = draws.takes();
            let length_taken = draws.takes();
            let left = leave_write(
                alloc,
                image,
                call.at,
                bytes_in(row, call),
                bytes_taken,
                length_taken,
            )?;
            Ok(left)
        }
        Kind::Sync => Ok(image),
        Kind::Remove => { if draws.takes() { Ok(None) } else { Ok(image) } }
    }
}

// Goes on by these calls, of which none is a sync of the file.
fn leave_calls(
    alloc: Global,
    calls: &[Call],
    row: &[u8],
    file: u64,
    image: Option<Vec<u8>>,
    draws: &mut Draws,
) -> Result<Option<Vec<u8>>, AllocError>
    requires held { AllHeld (length row.now) calls.now }
    requires pending { All (IsNoSync file) calls.now }
    ensures left { (h : List Step) (start : ℕ) → IsLeft draws.old.choice file h start (items_of image) draws.old.state
        → IfOk result
        (λ x. IsLeft draws.old.choice file (history_on h row.now calls.now) start (items_of x) draws.new.state) }
    ensures choice { draws.new.choice ≡ draws.old.choice }
{
    let mut image = image;
    for call in calls {
        image = leave_call(alloc, call, row, file, image, draws)?;
    }
    Ok(image)
}

fn is_sync_of(call: &Call, file: u64) -> bool
    ensures yes { IsTrue result → (call.now.kind ≡ Kind.Sync) × (call.now.file ≡ file) }
    ensures no { result ≡ false → IsNoSync file call.now }
{
    call.kind == Kind::Sync && call.file == file
}

// Where the calls begin that are pending for the file: after its last sync.
fn pending_from(calls: &[Call], file: u64) -> usize
    ensures bound { result ≤ length calls.now }
    ensures pending { All (IsNoSync file) (drop result calls.now) }
    ensures settled { (row : List ℕ) → IsAtSync file (history_of row (take result calls.now)) }
{
    let mut from = calls.len();
    while from > 0 && !is_sync_of(&calls[from - 1], file) {
        from -= 1;
    }
    from
}

// What a stop after the calls leaves of the file.
pub(crate) fn file_image(
    alloc: Global,
    calls: &[Call],
    row: &[u8],
    file: u64,
    draws: &mut Draws,
) -> Result<Option<Vec<u8>>, AllocError>
    requires { AllHeld (length row.now) calls.now }
    ensures left { IfOk result (λ x. IsLeft draws.old.choice file (history_of row.now calls.now) draws.old.state
        (items_of x) draws.new.state) }
    ensures choice { draws.new.choice ≡ draws.old.choice }
{
    let from = pending_from(calls, file);
    let synced = content_of(alloc, &calls[..from], row, file)?;
    let left = leave_calls(alloc, &calls[from..], row, file, synced, draws)?;
    Ok(left)
}
