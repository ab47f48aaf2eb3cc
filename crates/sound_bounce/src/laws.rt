// What the deeds of a bounce say. This function does nothing: its contract is the law.
ghost use Rattle.sound_bounce.specs.Bounces.{BouncesTell};

use disk_model::Store;
use edit_ports::Vault;

/// Where vaults tell their bytes and the disk held the studio at the start, the file that the deeds of a bounce say is
/// that of the mix of the project that was current where its pin was made, whatever others did between its turns. If it
/// broke off, they say the first bytes of that file.
pub fn bounces_tell<S: Store, V: Vault>()
    ensures { BouncesTell S.Store V.Vault }
{}
