// Numbers and bytes that came, beside what they are to be.
ghost use Rattle.std.specs.Prelude.{◌≡◌, IsOk, ◌↔◌};

use super::fault::Fault;
use super::sections::Line;
use std::alloc::Global;

// The numbers, as a text.
fn numbers_text(alloc: Global, numbers: &[u64]) -> Result<String, Fault> {
    let mut text = String::new(alloc);
    for number in numbers {
        let word = format!(in alloc; " {number}")?;
        text.push_str(word.as_str())?;
    }
    Ok(text)
}

// The bytes in hexadecimal digits.
fn bytes_text(alloc: Global, bytes: &[u8]) -> Result<String, Fault> {
    let mut text = String::new(alloc);
    for byte in bytes {
        let word = format!(in alloc; " {byte:02X}")?;
        text.push_str(word.as_str())?;
    }
    Ok(text)
}

/// Whether the numbers that came are those that a line says. If not, the fault has them.
pub fn are_numbers(
    alloc: Global,
    line: Line<'_>,
    numbers: &[u64],
    wanted: &[u64],
) -> Result<(), Fault>
    ensures same { IsOk result ↔ (numbers.now ≡ wanted.now) }
{
    if numbers == wanted {
        Ok(())
    } else {
        Err(not_numbers(alloc, line, numbers))
    }
}

/// The fault that these numbers came, and not what a line says.
pub fn not_numbers(alloc: Global, line: Line<'_>, numbers: &[u64]) -> Fault {
    match numbers_text(alloc, numbers) {
        Ok(came) => line.wrong(came),
        Err(fault) => fault,
    }
}

/// Whether the bytes that came are those that a line says. If not, the fault has them.
pub fn are_bytes(alloc: Global, line: Line<'_>, bytes: &[u8], wanted: &[u8]) -> Result<(), Fault>
    ensures same { IsOk result ↔ (bytes.now ≡ wanted.now) }
{
    if bytes == wanted {
        Ok(())
    } else {
        Err(line.wrong(bytes_text(alloc, bytes)?))
    }
}
