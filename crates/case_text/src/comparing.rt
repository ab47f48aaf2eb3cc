// Texts that are printed, beside what they are to be.
ghost use Rattle.std.specs.Prelude.{◌≡◌, IsTrue, MatchOption};
ghost use Rattle.case_text.specs.Alike.{IsAlike, IsAround, after_one, is_digit, is_numbered, without_digits};

fn is_digit(byte: u8) -> bool
    ensures { result ≡ is_digit byte }
{
    b'0' <= byte && byte <= b'9'
}

// What follows the digits that a text begins with.
fn without_digits(text: &[u8]) -> &[u8]
    ensures { result.now ≡ without_digits text.now }
{
    for (i, byte) in text.iter().enumerate() {
        if !is_digit(*byte) {
            return &text[i..];
        }
    }
    &[]
}

// What follows in a text after one byte that is wanted. For `#` stands a number.
fn after_one(wanted: u8, text: &[u8]) -> Option<&[u8]>
    ensures { MatchOption result (after_one wanted text.now ≡ None)
        (λ rest. after_one wanted text.now ≡ Some rest.now) }
{
    let (first, rest) = text.split_first()?;
    if wanted != b'#' {
        return if wanted == *first { Some(rest) } else { None };
    }
    if is_digit(*first) {
        Some(without_digits(rest))
    } else {
        None
    }
}

// Whether a text is as wanted, where each `#` stands for a number.
fn is_numbered(wanted: &[u8], text: &[u8]) -> bool
    ensures { result ≡ is_numbered wanted.now text.now }
{
    let mut rest = text;
    for byte in wanted {
        match after_one(*byte, rest) {
            Some(after) => rest = after,
            None => return false,
        }
    }
    rest.is_empty()
}

// Whether a text begins and ends so.
fn is_around(begins: &[u8], ends: &[u8], text: &[u8]) -> bool
    ensures { IsTrue result → IsAround begins.now ends.now text.now }
{
    if text.len() < begins.len() {
        return false;
    }
    let (front, rest) = text.split_at(begins.len());
    if rest.len() < ends.len() {
        return false;
    }
    let (_, back) = rest.split_at(rest.len() - ends.len());
    front == begins && back == ends
}

/// Whether a text is as wanted. Three dots stand for any bytes. Where there are none, each `#` stands for a number.
pub fn is_like(wanted: &str, text: &[u8]) -> bool
    ensures { IsTrue result → IsAlike wanted.now text.now }
{
    match wanted.split_once("...") {
        Some((begins, ends)) => is_around(begins.as_bytes(), ends.as_bytes(), text),
        None => is_numbered(wanted.as_bytes(), text),
    }
}

// The number after a word.
fn number_after(line: &str, word: &str) -> Option<u64> {
    let digits = line.strip_prefix(word)?;
    digits.parse::<u64>().ok()
}

// The commit number that a line has, if it is `ok C` or `end C`.
fn printed_by(line: &str) -> Option<u64> {
    match number_after(line, "ok ") {
        Some(number) => Some(number),
        None => number_after(line, "end "),
    }
}

/// The number of the last line `ok C` or `end C` of a text.
pub fn last_printed(text: &[u8]) -> Option<u64> {
    let mut told = None;
    let Ok(text) = std::str::from_utf8(text) else {
        return None;
    };
    for line in text.lines() {
        if let Some(number) = printed_by(line) {
            told = Some(number);
        }
    }
    told
}

/// Whether a text has a line `ok` after the first line that another has not.
pub fn goes_on(wanted: &str, text: &[u8]) -> bool {
    let Ok(text) = std::str::from_utf8(text) else {
        return true;
    };
    let mut lines = wanted.lines();
    let mut differs = false;
    for line in text.lines() {
        differs = differs || lines.next() != Some(line);
        if differs && line.starts_with("ok ") {
            return true;
        }
    }
    false
}
