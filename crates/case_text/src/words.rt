// What the words of a line say.
use super::bytes::{BadBytes, read_bytes, read_numbers};
use super::fault::Fault;
use super::sections::Line;
use std::alloc::Global;

// What was read of a line.
fn read_as<T: Drop>(line: Line<'_>, read: Result<T, BadBytes>) -> Result<T, Fault> {
    match read {
        Ok(value) => Ok(value),
        Err(BadBytes::NoMemory) => Err(Fault::NoMemory),
        Err(BadBytes::Unread) => Err(line.unread()),
    }
}

/// The bytes that words of a line say.
pub fn bytes_of(alloc: Global, line: Line<'_>, text: &str) -> Result<Vec<u8>, Fault> {
    read_as(line, read_bytes(alloc, text))
}

/// The numbers that words of a line say.
pub fn numbers_of(alloc: Global, line: Line<'_>, text: &str) -> Result<Vec<u64>, Fault> {
    read_as(line, read_numbers(alloc, text))
}

/// The number that a word of a line says.
pub fn number_of(line: Line<'_>, word: &str) -> Result<u64, Fault> {
    match word.trim().parse::<u64>() {
        Ok(number) => Ok(number),
        Err(_) => Err(line.unread()),
    }
}
