// Names of sounds.
ghost use Rattle.std.specs.Prelude.{◌≡◌};
ghost use Rattle.std.specs.List.{list_all};
ghost use Rattle.pcm_base.specs.Form.{is_name, is_name_byte, begins_well};

fn is_name_byte(b: u8) -> bool
    ensures { result ≡ is_name_byte b }
{
    (48 <= b && b <= 57)
        || (65 <= b && b <= 90)
        || (97 <= b && b <= 122)
        || b == b'.'
        || b == b'_'
        || b == b'-'
}

fn begins_well(name: &[u8]) -> bool
    ensures { result ≡ begins_well name.now }
{
    !name.is_empty() && name[0] != b'.'
}

fn has_name_bytes(name: &[u8]) -> bool
    ensures { result ≡ list_all is_name_byte name.now }
{
    for b in name {
        if !is_name_byte(*b) {
            return false;
        }
    }
    true
}

// Whether a sound may have the name. None that may leads out of the folder of the sounds.
pub(crate) fn is_name(name: &[u8]) -> bool
    ensures { result ≡ is_name name.now }
{
    name.len() <= 255 && begins_well(name) && has_name_bytes(name)
}
