// Opening the project of a store.
ghost use Rattle.std.specs.Prelude.{Err, IfErr, IfOk};
ghost use Rattle.editor_core.specs.Core.{core_of};
ghost use Rattle.session_run.specs.Opening.{Looks, OpensTo};

use disk_model::Store;
use editor_core::Studio;
use editor_recovery::{OpenFault, open_store};
use std::alloc::Global;

/// Opens the project of a store, or hands the store back with what is at fault.
///
/// # Errors
///
/// The fault that `open_store` finds.
pub fn open_project<S: Store>(alloc: Global, store: S) -> Result<Studio<S>, (OpenFault, S)>
    ensures opened { IfOk result (λ studio. OpensTo S.Store store (core_of studio)) }
    ensures refused { IfErr result (λ e. Looks S.Store store e.1 (Err e.0)) }
{
    match open_store(alloc, store) {
        Ok(studio) => Ok(studio),
        Err((fault, store)) => Err((fault, store)),
    }
}
