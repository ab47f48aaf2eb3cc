// The lines of a script, carried out in order.
ghost use Rattle.std.specs.Prelude.{OnOk};
ghost use Rattle.editor_core.specs.Core.{core_of};
ghost use Rattle.memory_project.specs.Lines.{MayRun, RanLines};

use super::lines::run_line;
use disk_model::Store;
use editor_core::Studio;
use pcm_base::{Command, NoMemory};
use std::alloc::Global;

/// Carries out lines of which nothing refuses one, in order, on a disk that has room for all of them.
///
/// # Errors
///
/// There is no memory for a line. Those before it were carried out.
pub fn run_script<S: Store>(
    alloc: Global,
    studio: &mut Studio<S>,
    script: &[Command],
) -> Result<(), NoMemory>
    requires { MayRun S.Store (core_of studio.old) script.now }
    ensures { OnOk result (RanLines S.Store (core_of studio.old) script.now (core_of studio.new)) }
{
    'lines: for command in script {
        run_line(alloc, studio, command)?;
    }
    Ok(())
}
