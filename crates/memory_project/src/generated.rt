// The script of a number, run on a fresh project in memory.
ghost use Rattle.std.specs.Prelude.{◌≡◌, ◌≤◌, IfOk};
ghost use Rattle.memory_project.specs.Sums.{RanScript, project_for};

use super::fresh::{FreshProject, fresh_studio};
use super::script::run_script;
use super::summing::sum_up;
use disk_model::Store;
use memory_disk::RamStore;
use pcm_base::NoMemory;
use script_gen::generate;
use script_text::Summary;
use std::alloc::Global;

/// The project of the script of a number, with room for this many lines of it: 12 files, 24,576 bytes and 64 changing
/// calls for each, and 128 more of each.
fn project_for(lines: u32) -> FreshProject
    requires { lines ≤ 4096 }
    ensures { result ≡ project_for lines }
{
    let lines = lines as usize;
    FreshProject {
        rate: 8000,
        block_size: 512,
        depth: 64,
        files: 12 * lines + 128,
        bytes: 24576 * lines + 128,
        calls: 64 * lines + 128,
    }
}

/// Makes the script of a number, of 2 to 4,096 lines, carries it out on a fresh project in memory, line by line, and
/// tells the sum of it.
///
/// # Errors
///
/// There is no memory for the script, for its project or for a line of it.
pub fn run_generated(alloc: Global, number: u64, lines: u32) -> Result<Summary, NoMemory>
    requires least { 2 ≤ lines }
    requires most { lines ≤ 4096 }
    ensures { IfOk result (λ sum. RanScript ⟦<RamStore as Store>⟧ number lines sum) }
{
    let script = generate(alloc, number, lines)?;
    let mut studio = fresh_studio(alloc, &project_for(lines))?;
    run_script(alloc, &mut studio, &script)?;
    sum_up(alloc, &mut studio, number, lines)
}
