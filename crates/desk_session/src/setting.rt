// What is set before the first line of a session.
ghost use Rattle.std.specs.Prelude.{◌≡◌, is_some};
ghost use Rattle.desk_session.specs.Sides.{is_asked};

use super::opening::Opened;
use super::rings::Rings;
use script_reader::LineBuffer;

/// What was opened, with the rings for it, and what else a session begins with.
#[derive(Drop)]
pub struct Setting {
    pub opened: Opened,
    pub rings: Rings,
    /// The id of the recording's track, where it was made.
    pub track: u64,
    /// The commit number that was told last.
    pub last: u64,
    pub line: LineBuffer,
    // A ring for each that was asked for.
    ghost ringed: { (is_some rings.record ≡ is_asked opened.recording) × (is_some rings.play ≡ is_asked opened.pin) },
}
