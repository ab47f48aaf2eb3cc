// What a session is over a vault that does not report its bytes.
ghost use Rattle.desk_session.specs.Lent.{kinds};
ghost use Rattle.session_run.specs.ByRead.{RunsByRead};

use disk_model::Store;
use edit_ports::{Sink, Source, Vault};

/// Over a vault that does not report its bytes, a session on an honest disk is a run of the model in which each import
/// read some sound, and a stop of the disk leaves the project after some of its first entries. No line may be an
/// `export`, and no import may be told that its sound is cut short. A `bounce` may be among the lines, as none of its
/// turns names a sound. This function does nothing: its contract is the law.
pub fn runs_by_read<S: Store, V: Vault, M: Source, P: Sink>()
    ensures { RunsByRead (kinds S.Store V.Vault M.Source P.Sink) }
{}
