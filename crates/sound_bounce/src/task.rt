// What a bounce is asked for, and its parts.
use disk_model::Store;
use edit_ports::Vault;
use mixdown::Loaded;
use std::alloc::Global;
use studio_seats::Desk;

/// What stays the same in all that a bounce does: its threads, its memory and its desk, the name of the sound that it
/// writes, and how many frames a turn of it loads at most.
#[derive(Drop)]
pub struct Task<'a, R, S: Store, V: Vault> {
    pub rt: &'a R,
    pub alloc: Global,
    pub desk: &'a Desk<S, V>,
    pub name: &'a str,
    pub batch: usize,
}

/// The mix of a pin, which has `len` frames.
#[derive(Clone, Copy)]
pub(crate) struct Mix {
    pub(crate) pin: u64,
    pub(crate) len: u64,
}

/// At most `batch` frames of the mix of a pin, from a place on, which one turn loads.
#[derive(Clone, Copy)]
pub(crate) struct Part {
    pub(crate) pin: u64,
    pub(crate) from: u64,
    pub(crate) batch: usize,
}

/// What is mixed, and what is loaded meanwhile. Before that `held` frames are written, which were mixed before.
#[derive(Clone, Copy)]
pub(crate) struct Step<'a> {
    pub(crate) mixes: &'a Loaded,
    pub(crate) loads: Part,
    pub(crate) held: usize,
}
