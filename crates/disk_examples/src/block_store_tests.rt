// Reads of a block whose file is damaged, too long or too short. The program opens no project with such a file.
use super::disks::disk;
use block_store::{BlockFault, compare_header, read_samples};
use disk_model::Store;
use memory_disk::RamStore;
use pcm_base::BlockRef;
use std::alloc::Global;
use std::test::*;

pub(crate) const BLOCK: BlockRef = BlockRef { id: 16, len: 2 };

/// The file of the block of id 16 with the samples 1 and -2, and one byte more.
static FILE: [u8; 45] = [
    0x41, 0x42, 0x4B, 0x31, 0x10, 0, 0, 0, 0, 0, 0, 0, 2, 0, 0, 0, // magic, id, count
    1, 0, 0xFE, 0xFF, // samples
    0xFE, 0xFF, 1, 0, 5, 0, 0, 0, 0, 0, 0, 0, // the short frame
    0xFE, 0xFF, 1, 0, 5, 0, 0, 0, 0, 0, 0, 0, // the long frame
    33,
];

/// How many bytes of it there are, and the place of one that is changed to another, which may be nowhere. Then what a
/// comparison of the header tells, and a read of the samples: the place that differs, what is wanted and what is there.
type Row = ([u64; 3], [u64; 3], [u64; 3]);

const NOWHERE: u64 = 99;

static ROWS: [Row; 8] = [
    ([45, 99, 0], [99, 0, 0], [99, 0, 0]),
    ([44, 36, 6], [99, 0, 0], [99, 0, 0]),
    (
        [44, 0, 0],
        [0, 0x314B_4241, 0x314B_4200],
        [0, 0x314B_4241, 0x314B_4200],
    ),
    ([44, 4, 17], [4, 16, 17], [4, 16, 17]),
    ([44, 12, 3], [12, 2, 3], [12, 2, 3]),
    ([19, 99, 0], [99, 0, 0], [0, 44, 19]),
    ([19, 4, 17], [4, 16, 17], [4, 16, 17]),
    ([0, 99, 0], [0, 44, 0], [0, 44, 0]),
];

// A disk with the file as a row says.
fn disk_of(alloc: Global, file: [u64; 3]) -> Result<RamStore, Fail> {
    let mut store = disk(alloc, Vec::new(alloc))?;
    let front = FILE.get(..file[0].min(45) as usize).ok_or("a row")?;
    if !front.is_empty() {
        store.write_at(16, 0, front).ok().ok_or("write")?;
    }
    if file[1] < NOWHERE {
        let byte = [file[2].min(255) as u8];
        store.write_at(16, file[1], &byte).ok().ok_or("write")?;
    }
    Ok(store)
}

// Whether this is what is told.
fn is_told(answer: Result<(), BlockFault>, told: [u64; 3]) -> bool {
    match answer {
        Ok(()) => told[0] == NOWHERE,
        Err(BlockFault::Damaged { file, found }) => {
            file == 16
                && found.at == told[0]
                && found.want == u128::from(told[1])
                && found.have == u128::from(told[2])
        }
        Err(_) => false,
    }
}

fn are_told<S: Store>(store: &mut S, row: Row) -> bool {
    let mut out = [0; 2];
    let header = compare_header(store, BLOCK);
    let samples = read_samples(store, BLOCK, 0, &mut out);
    let are_read = samples.is_err() || out[0] == 1 && out[1] == -2;
    are_read && is_told(header, row.1) && is_told(samples, row.2)
}

#[test]
fn files_as_they_are_read(rt: HostRuntime) -> Result<(), Fail> {
    for row in &ROWS {
        let mut store = disk_of(rt.alloc(), row.0)?;
        assert!(rt; are_told(&mut store, *row));
    }
    Ok(())
}
