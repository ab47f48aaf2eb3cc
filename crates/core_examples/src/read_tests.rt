// Pins and block files that nothing names, of a studio on a disk in memory, whose blocks have at most 4 samples.
ghost use Rattle.editor_core.specs.Core.{core_of};
ghost use Rattle.editor_state.specs.Studios.{IsStudio};

use super::scripts::Ask::{Line, Piece, Pin, PinLen, Unpin};
use super::scripts::{Row, tells};
use super::tests::{disk, new_studio};
use super::vaults::vault;
use disk_model::Store;
use edit_ports::Vault;
use editor_core::Studio;
use pcm_base::Frame;
use std::alloc::Global;
use std::process::Abort;
use std::test::*;

// A point of a recording is pinned, and two pieces more amend it. The second piece takes the sample of the first into
// its block, and the third those of the second: block 17 alone is named no more.
static PINNED: [Row; 8] = [
    (Line("track"), "ok 1"),
    (
        Piece {
            track: 1,
            tag: 1,
            samples: &[5],
        },
        "ok 2",
    ),
    (Pin, "pinned 2 1"),
    (
        Piece {
            track: 1,
            tag: 1,
            samples: &[6],
        },
        "ok 3",
    ),
    (
        Piece {
            track: 1,
            tag: 1,
            samples: &[7],
        },
        "ok 4",
    ),
    (Line("reclaim"), "freed 4 1"),
    (PinLen(1), "length 4 1"),
    (Line("mix 0 4"), "frames 4 5 5 6 6 7 7"),
];

// Without the pin block 16 goes too. One is left.
static UNPINNED: [Row; 5] = [
    (Unpin(1), "ok 4"),
    (Unpin(1), "no 4 NoPin 1"),
    (PinLen(1), "no 4 NoPin 1"),
    (Line("reclaim"), "freed 4 1"),
    (Line("reclaim"), "freed 4 0"),
];

// The journal and block 18.
static LEFT: [u64; 2] = [0, 18];

// Whether block file 18 is there, and no other.
fn has_block_18_alone<S: Store>(alloc: Global, store: &mut S) -> bool {
    let mut files = Vec::new(alloc);
    store.files(&mut files).is_ok() && files.as_slice() == LEFT.as_slice()
}

// Whether the first frame of the pin is the first of the two pieces.
fn begins_with_five<S: Store>(studio: &mut Studio<S>) -> bool
    requires { IsStudio S.Store (core_of studio.old) }
    ensures { IsStudio S.Store (core_of studio.new) }
{
    let mut out = [Frame { left: 0, right: 0 }; 4];
    match studio.read_pin(1, 0, &mut out) {
        Ok(count) => count == 1 && out[0].left == 5 && out[0].right == 5,
        Err(_) => false,
    }
}

// How many blocks are named.
fn count_blocks<S: Store>(studio: &Studio<S>) -> u64
    requires { IsStudio S.Store (core_of studio.now) }
{
    studio.facts().blocks
}

fn reads_on<S: Store, V: Vault>(
    rt: &impl Abort,
    alloc: Global,
    studio: &mut Studio<S>,
    vault: &mut V,
) -> Result<(), Fail>
    requires { IsStudio S.Store (core_of studio.old) }
{
    tells(rt, alloc, studio, vault, &PINNED)?;
    assert!(rt; begins_with_five(studio));
    assert!(rt; count_blocks(studio) == 2);
    tells(rt, alloc, studio, vault, &UNPINNED)?;
    assert!(rt; count_blocks(studio) == 1);
    Ok(())
}

fn keeps_its_mix(rt: &impl Abort, alloc: Global) -> Result<(), Fail> {
    let mut vault = vault(alloc)?;
    let mut studio = new_studio(alloc, disk(alloc)?, 16)?;
    reads_on(rt, alloc, &mut studio, &mut vault)?;
    assert!(rt; has_block_18_alone(alloc, &mut studio.into_store()));
    Ok(())
}

#[test]
fn a_pin_keeps_its_mix_while_a_recording_goes_on(rt: HostRuntime) -> Result<(), Fail> {
    keeps_its_mix(&rt, rt.alloc())
}
