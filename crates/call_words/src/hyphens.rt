// Words with hyphens that no command has.
ghost use Rattle.std.specs.Prelude.{◌≡◌, map, string_bytes};
ghost use Rattle.std.specs.List.{list_any};
ghost use Rattle.call_words.specs.Texts.{is_odd};

// Whether the word begins with a hyphen, and is no `--NAME` or `--NAME=VALUE`.
fn is_odd(word: &[u8]) -> bool
    ensures { result ≡ is_odd word.now }
{
    match word {
        [b'-', b'-', _, ..] => false,
        [b'-', ..] => true,
        _ => false,
    }
}

/// Whether one of the words is so.
pub fn has_odd(words: &[String]) -> bool
    ensures { result ≡ list_any is_odd (map string_bytes words.now) }
{
    for word in words {
        if is_odd(word.as_bytes()) {
            return true;
        }
    }
    false
}
