//! WAV files of a vault, in parts: tests with calls that the program does not make, and with buffers of any length.
#![tactic(auto)]

#[cfg(test)]
mod wav_parts_tests;
