// Bytes as words of a line: hexadecimal digits, numbers and text.
use std::alloc::{AllocError, Global};

/// How often a word is repeated at most.
const MOST: usize = 1_000_000;

/// Why words are no bytes.
#[derive(Drop)]
pub(crate) enum BadBytes {
    NoMemory,
    Unread,
}

impl From<AllocError> for BadBytes {
    fn from(_error: AllocError) -> BadBytes {
        BadBytes::NoMemory
    }
}

// The value of a digit. Those from ten on are capital letters.
fn digit_of(byte: u8) -> Option<u8> {
    match byte {
        b'0'..=b'9' => Some(byte - b'0'),
        b'A'..=b'F' => Some(byte - b'A' + 10),
        _ => None,
    }
}

// The byte of two digits.
fn byte_of(digits: &[u8]) -> Option<u8> {
    match digits {
        [high, low] => {
            let high = digit_of(*high)?;
            let low = digit_of(*low)?;
            Some(high.wrapping_mul(16).wrapping_add(low))
        }
        _ => None,
    }
}

fn push_digits(out: &mut Vec<u8>, digits: &[u8]) -> Result<(), BadBytes> {
    for pair in digits.chunks(2) {
        match byte_of(pair) {
            Some(byte) => push_all(out, &[byte])?,
            None => return Err(BadBytes::Unread),
        }
    }
    Ok(())
}

fn push_all(out: &mut Vec<u8>, bytes: &[u8]) -> Result<(), BadBytes> {
    out.extend_from_slice(bytes)?;
    Ok(())
}

// The two bytes of a sample, or of a number without a sign.
fn push_sample(out: &mut Vec<u8>, digits: &str) -> Result<(), BadBytes> {
    if let Ok(sample) = digits.parse::<i16>() {
        return push_all(out, &sample.to_le_bytes());
    }
    match digits.parse::<u16>() {
        Ok(number) => push_all(out, &number.to_le_bytes()),
        Err(_) => Err(BadBytes::Unread),
    }
}

// The frames from one sample to another, each one more than the one before, and the same on both sides.
fn push_frames(out: &mut Vec<u8>, text: &str) -> Result<(), BadBytes> {
    let Some((first, last)) = text.split_once("..") else {
        return Err(BadBytes::Unread);
    };
    let (Ok(first), Ok(last)) = (first.parse::<i16>(), last.parse::<i16>()) else {
        return Err(BadBytes::Unread);
    };
    for sample in first..=last {
        push_all(out, &sample.to_le_bytes())?;
        push_all(out, &sample.to_le_bytes())?;
    }
    Ok(())
}

// The four bytes of a number.
fn push_four(out: &mut Vec<u8>, digits: &str) -> Result<(), BadBytes> {
    match digits.parse::<u32>() {
        Ok(number) => push_all(out, &number.to_le_bytes()),
        Err(_) => Err(BadBytes::Unread),
    }
}

// The eight bytes of a number.
fn push_eight(out: &mut Vec<u8>, digits: &str) -> Result<(), BadBytes> {
    match digits.parse::<u64>() {
        Ok(number) => push_all(out, &number.to_le_bytes()),
        Err(_) => Err(BadBytes::Unread),
    }
}

// The bytes of a word.
fn push_word(out: &mut Vec<u8>, word: &str) -> Result<(), BadBytes> {
    if let Some(text) = word.strip_prefix('"') {
        match text.strip_suffix('"') {
            Some(text) => push_all(out, text.as_bytes()),
            None => Err(BadBytes::Unread),
        }
    } else if let Some(digits) = word.strip_prefix('s') {
        push_sample(out, digits)
    } else if let Some(text) = word.strip_prefix('f') {
        push_frames(out, text)
    } else if let Some(digits) = word.strip_prefix('d') {
        push_four(out, digits)
    } else if let Some(digits) = word.strip_prefix('q') {
        push_eight(out, digits)
    } else {
        push_digits(out, word.as_bytes())
    }
}

// A word, and how often its bytes come.
fn times_of(word: &str) -> Result<(&str, usize), BadBytes> {
    match word.split_once('*') {
        Some((word, times)) => match times.parse::<usize>() {
            Ok(times) => Ok((word, times.min(MOST))),
            Err(_) => Err(BadBytes::Unread),
        },
        None => Ok((word, 1)),
    }
}

/// The bytes of words.
pub(crate) fn read_bytes(alloc: Global, text: &str) -> Result<Vec<u8>, BadBytes> {
    let mut out = Vec::new(alloc);
    for word in text.split_whitespace() {
        let (word, times) = times_of(word)?;
        for _ in 0..times {
            push_word(&mut out, word)?;
        }
    }
    Ok(out)
}

/// The numbers of words.
pub(crate) fn read_numbers(alloc: Global, text: &str) -> Result<Vec<u64>, BadBytes> {
    let mut numbers = Vec::new(alloc);
    for word in text.split_whitespace() {
        match word.parse::<u64>() {
            Ok(number) => push_number(&mut numbers, number)?,
            Err(_) => return Err(BadBytes::Unread),
        }
    }
    Ok(numbers)
}

fn push_number(numbers: &mut Vec<u64>, number: u64) -> Result<(), BadBytes> {
    match numbers.push(number) {
        Ok(()) => Ok(()),
        Err(_) => Err(BadBytes::NoMemory),
    }
}
