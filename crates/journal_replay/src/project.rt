// A project while records are folded into it.
ghost use Rattle.std.specs.Prelude.{◌≡◌, ◌≤◌, IfOk};
ghost use Rattle.record_body.specs.Saved.{new_project};
ghost use Rattle.journal_replay.specs.Folds.{saved_of, HasLayoutNumbers};

use layout_uses::Numbered;
use pcm_base::{FIRST_BLOCK, NoMemory};
use project_state::Point;
use std::alloc::Global;

/// What records lead to: the points of a project, and the numbers that never fall.
#[derive(Drop)]
pub struct Project {
    /// The points, whose layouts have their numbers.
    pub numbered: Numbered,
    /// The least id of a block that was not given yet, from 16.
    pub next_block: u64,
    /// The least id of a track that was not given yet, from 1.
    pub next_track: u64,
    /// How many records there were.
    pub commit: u64,
}

impl Project {
    /// The project of no records, whose one point has no tracks. At most `depth` points are kept, at least 1.
    pub fn new(alloc: Global, depth: u32) -> Result<Project, NoMemory>
        requires { 1 ≤ depth }
        ensures kept { IfOk result (λ p. saved_of p ≡ new_project depth) }
        ensures numbers { IfOk result HasLayoutNumbers }
        ensures first { IfOk result (λ p. p.numbered.next ≤ 1) }
    {
        let none = Point::new(alloc);
        match Numbered::new(alloc, &none, 0, depth) {
            Ok(numbered) => Ok(Project {
                numbered,
                next_block: FIRST_BLOCK,
                next_track: 1,
                commit: 0,
            }),
            Err(fault) => Err(fault),
        }
    }
}
