// What one record makes of a project.
ghost use Rattle.std.specs.Prelude.{◌≡◌, ◌+◌, ◌-◌, ◌≤◌, ◌<◌, ◌^◌, OnOk};
ghost use Rattle.pcm_base.specs.declared.limits.TheConstants.{COUNTER_LIMIT};
ghost use Rattle.pcm_base.specs.History.{at_cursor, purged};
ghost use Rattle.project_state.specs.Numbers.{AreNewOrCurrent};
ghost use Rattle.record_body.specs.declared.body.Body.TheVariants as body;
ghost use Rattle.record_body.specs.FirstFault.{Finds};
ghost use Rattle.record_body.specs.Saved.{current_tracks};
ghost use Rattle.record_body.specs.Numbers.{unnumbered_body};
ghost use Rattle.record_body.specs.Told.{BodyShares};
ghost use Rattle.journal_replay.specs.Faults as fault;
ghost use Rattle.journal_replay.specs.Faults.{history_tests};
ghost use Rattle.journal_replay.specs.Folds.{HasLayoutNumbers, IsAfter};

use super::project::Project;
use pcm_base::NoMemory;
use project_journal::Damaged;
use project_state::Point;
use record_body::{BadBody, Body};
use std::alloc::Global;
use undo_history::History;

/// The history has nowhere to go, which is reported at the record's kind.
fn nowhere(at: u64) -> BadBody
    ensures { result ≡ BadBody.Damaged (record { at = at; want = 1; have = 0 }) }
{
    BadBody::Damaged {
        fault: Damaged {
            at,
            want: 1,
            have: 0,
        },
    }
}

/// An undo.
fn go_back(history: &mut History<Point>, at: u64) -> Result<(), BadBody>
    ensures { Finds (history_tests history.old.history at body.Undo)
        (λ _. history.new.history ≡ at_cursor history.old.history (history.old.history.cursor - 1)) result }
{
    match history.undo() {
        Ok(()) => Ok(()),
        Err(_) => Err(nowhere(at)),
    }
}

/// A redo.
fn go_forth(history: &mut History<Point>, at: u64) -> Result<(), BadBody>
    ensures { Finds (history_tests history.old.history at body.Redo)
        (λ _. history.new.history ≡ at_cursor history.old.history (history.old.history.cursor + 1)) result }
{
    match history.redo() {
        Ok(()) => Ok(()),
        Err(_) => Err(nowhere(at)),
    }
}

/// The fault of a purge of more points than stand before the current one, of which there are `most`, or of none.
fn out_of_range(at: u64, n: u64, most: usize) -> BadBody
    ensures { result ≡ BadBody.Damaged (fault.out_of_range at n most) }
{
    if most == 0 {
        return nowhere(at);
    }
    BadBody::Damaged {
        fault: Damaged {
            at: at.saturating_add(1),
            want: n.min(most as u64).max(1) as u128,
            have: n as u128,
        },
    }
}

/// A purge.
fn drop_oldest(history: &mut History<Point>, at: u64, n: u64) -> Result<(), BadBody>
    ensures { Finds (history_tests history.old.history at (body.Purge n))
        (λ _. history.new.history ≡ purged history.old.history n) result }
{
    match history.purge(n) {
        Ok(()) => Ok(()),
        Err(_) => Err(out_of_range(at, n, history.cursor())),
    }
}

/// An edit, or a piece of a recording, which was read by the current point. Its layouts get their numbers.
fn take_edit(
    alloc: Global,
    project: &mut Project,
    tag: u64,
    next_block: u64,
    next_track: u64,
    point: &Point,
) -> Result<(), NoMemory>
    requires commit { project.old.commit < 2 ^ 64 - 1 }
    requires layouts { project.old.numbered.next ≤ COUNTER_LIMIT }
    requires numbers { HasLayoutNumbers project.old }
    requires shared { AreNewOrCurrent (current_tracks project.old.numbered.history.history) point.now }
    ensures { OnOk result (IsAfter project.old project.new (body.Edit tag next_block next_track point.now)) }
{
    project.numbered.record(alloc, point, tag)?;
    project.next_block = next_block;
    project.next_track = next_track;
    project.commit += 1;
    Ok(())
}

fn take_undo(project: &mut Project, at: u64) -> Result<(), BadBody>
    requires commit { project.old.commit < 2 ^ 64 - 1 }
    requires numbers { HasLayoutNumbers project.old }
    ensures { Finds (history_tests project.old.numbered.history.history at body.Undo)
        (λ _. IsAfter project.old project.new body.Undo) result }
{
    go_back(&mut project.numbered.history, at)?;
    project.commit += 1;
    Ok(())
}

fn take_redo(project: &mut Project, at: u64) -> Result<(), BadBody>
    requires commit { project.old.commit < 2 ^ 64 - 1 }
    requires numbers { HasLayoutNumbers project.old }
    ensures { Finds (history_tests project.old.numbered.history.history at body.Redo)
        (λ _. IsAfter project.old project.new body.Redo) result }
{
    go_forth(&mut project.numbered.history, at)?;
    project.commit += 1;
    Ok(())
}

fn take_purge(project: &mut Project, at: u64, n: u64) -> Result<(), BadBody>
    requires commit { project.old.commit < 2 ^ 64 - 1 }
    requires numbers { HasLayoutNumbers project.old }
    ensures { Finds (history_tests project.old.numbered.history.history at (body.Purge n))
        (λ _. IsAfter project.old project.new (body.Purge n)) result }
{
    drop_oldest(&mut project.numbered.history, at, n)?;
    project.commit += 1;
    Ok(())
}

/// Tests what the history asks of a record, and does to the project what the record says. The body was read by the
/// current point.
pub(crate) fn take_body(
    alloc: Global,
    project: &mut Project,
    at: u64,
    body: Body,
) -> Result<(), BadBody>
    requires commit { project.old.commit < 2 ^ 64 - 1 }
    requires layouts { project.old.numbered.next ≤ COUNTER_LIMIT }
    requires numbers { HasLayoutNumbers project.old }
    requires shared { BodyShares (current_tracks project.old.numbered.history.history) body }
    ensures { Finds (history_tests project.old.numbered.history.history at (unnumbered_body body))
        (λ _. IsAfter project.old project.new body) result }
{
    match body {
        Body::Edit {
            tag,
            next_block,
            next_track,
            point,
        } => {
            take_edit(alloc, project, tag, next_block, next_track, &point)?;
            Ok(())
        }
        Body::Undo => take_undo(project, at),
        Body::Redo => take_redo(project, at),
        Body::Purge { n } => take_purge(project, at, n),
    }
}
