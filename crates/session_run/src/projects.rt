// The words that make, list and check a project.
ghost use Rattle.std.specs.Prelude.{◌≡◌, ◌⊎◌, None};
ghost use Rattle.call_words.specs.Bounds.{IsNewProject};
ghost use Rattle.editor_core.specs.Core.{core_of};
ghost use Rattle.editor_state.specs.Studios.{IsStudio};
ghost use Rattle.script_reader.specs.Change.{change};
ghost use Rattle.script_text.specs.declared.call_fault.CallFault.TheVariants as call;
ghost use Rattle.session_run.specs.Projects.{Checks, Listed, Lists, Makes};
ghost use Rattle.session_run.specs.Refused.{IsRefused};
ghost use Rattle.session_run.specs.Streams.{Streams, from_sink};

use super::ending::Done;
use super::opening::open_project;
use super::refusing::{call_fault, refuse};
use call_words::NewProject;
use disk_model::Store;
use edit_ports::Sink;
use editor_core::Studio;
use editor_recovery::{check, create};
use script_text::{CallFault, ProjectLines, write_checked, write_made, write_project};
use std::alloc::Global;

/// Makes a project.
pub fn make_project<S: Store, O: Sink>(
    alloc: Global,
    out: &mut O,
    mut store: S,
    project: NewProject,
) -> Done<S>
    requires { IsNewProject project }
    ensures { (source : Streams) → Makes S.Store project store (from_sink O.Sink source (change out.old out.new))
        result }
{
    match create(
        alloc,
        &mut store,
        project.rate,
        project.block_size,
        project.depth,
    ) {
        Ok(()) => {
            let _ = write_made(out);
            Done::without_script(alloc, 0, store)
        }
        Err(fault) => refuse(alloc, out, store, call_fault(fault)),
    }
}

// Prints what is told of a studio.
fn list_opened<S: Store, O: Sink>(alloc: Global, out: &mut O, studio: Studio<S>) -> Done<S>
    requires studio { IsStudio S.Store (core_of studio) }
    requires going { (core_of studio).stopped ≡ None }
    ensures listed { (source : Streams)
        → Listed S.Store (core_of studio) (from_sink O.Sink source (change out.old out.new)) result
        ⊎ IsRefused call.NoMemory (from_sink O.Sink source (change out.old out.new)) result }
    ensures store { result.store ≡ (core_of studio).store }
{
    let Ok(tracks) = studio.tracks(alloc) else {
        return refuse(alloc, out, studio.into_store(), CallFault::NoMemory);
    };
    let facts = studio.facts();
    let commit = studio.commit_number();
    let lines = ProjectLines {
        rate: facts.rate,
        block_size: facts.block_size,
        depth: facts.depth,
        commit,
        points: facts.points,
        cursor: facts.cursor,
    };
    let _ = write_project(out, &lines, tracks.as_slice());
    Done::without_commits(alloc, commit, studio.into_store())
}

/// Shows the project of a store.
pub fn list_project<S: Store, O: Sink>(alloc: Global, out: &mut O, store: S) -> Done<S>
    ensures { (source : Streams) → Lists S.Store store (from_sink O.Sink source (change out.old out.new)) result }
{
    match open_project(alloc, store) {
        Ok(studio) => list_opened(alloc, out, studio),
        Err((fault, store)) => refuse(alloc, out, store, call_fault(fault)),
    }
}

/// Checks the blocks of the project of a store.
pub fn check_project<S: Store, O: Sink>(alloc: Global, out: &mut O, store: S) -> Done<S>
    ensures { (source : Streams) → Checks S.Store store (from_sink O.Sink source (change out.old out.new)) result }
{
    match open_project(alloc, store) {
        Ok(mut studio) => match check(alloc, &mut studio) {
            Ok(count) => {
                let _ = write_checked(out, count, studio.commit_number());
                Done::without_script(alloc, 0, studio.into_store())
            }
            Err(fault) => refuse(alloc, out, studio.into_store(), call_fault(fault)),
        },
        Err((fault, store)) => refuse(alloc, out, store, call_fault(fault)),
    }
}
