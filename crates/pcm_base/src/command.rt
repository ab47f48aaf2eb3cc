// What the editor is asked for.
ghost use Rattle.std.specs.Prelude.{◌≡◌, ◌==◌};
ghost use Rattle.pcm_base.specs.declared.command.Call.TheVariants.{Line};
ghost use Rattle.pcm_base.specs.Counters.{commits_of};

use super::lists::Samples;
use super::name::Name;
use super::sound::Side;

/// A line of the script. Places and lengths are counted in cells, from 0; a range has its first cell and not its last.
#[derive(Debug, Drop)]
pub enum Command {
    /// Adds an empty track with the next id.
    Track,
    /// Takes a track away.
    Drop {
        track: u64,
    },
    /// Sets the gain with which a track is heard, from 0 to 1,048,576; 65,536 is unity.
    Level {
        track: u64,
        gain: u32,
    },
    /// Sets the sides on which a track is heard.
    Side {
        track: u64,
        side: Side,
    },
    /// Mutes a track, or lets it be heard again.
    Mute {
        track: u64,
        mute: bool,
    },
    /// Inserts samples. Beyond the track's end the space between is filled with gaps.
    Put {
        track: u64,
        at: u64,
        samples: Samples,
    },
    /// Inserts samples from `start` on in steps of `step`, each limited to what a sample can be; 1 to 1,048,576 of
    /// them.
    Ramp {
        track: u64,
        at: u64,
        count: u32,
        start: i16,
        step: i16,
    },
    /// Takes a range out, so that what comes after it moves up.
    Delete {
        track: u64,
        from: u64,
        to: u64,
    },
    /// Makes gaps of a range.
    SplitDelete {
        track: u64,
        from: u64,
        to: u64,
    },
    /// Makes the samples of a range 0, and leaves its gaps.
    Silence {
        track: u64,
        from: u64,
        to: u64,
    },
    /// Makes gaps of all of a track outside a range.
    Trim {
        track: u64,
        from: u64,
        to: u64,
    },
    /// Scales the samples of a range by a gain, from 0 to 1,048,576; 65,536 is unity.
    Gain {
        track: u64,
        from: u64,
        to: u64,
        gain: u32,
    },
    /// Copies a range of as many tracks as `count`, from a track on, and takes it out of each.
    Cut {
        track: u64,
        count: u64,
        from: u64,
        to: u64,
    },
    /// Copies a range of as many tracks as `count`, from a track on, and makes gaps of it in each.
    SplitCut {
        track: u64,
        count: u64,
        from: u64,
        to: u64,
    },
    /// Copies a range of as many tracks as `count`, from a track on.
    Copy {
        track: u64,
        count: u64,
        from: u64,
        to: u64,
    },
    /// Inserts what was copied, from a track on.
    Paste {
        track: u64,
        at: u64,
    },
    /// Puts what was copied in the place of what is there, from a track on.
    PasteOver {
        track: u64,
        at: u64,
    },
    /// Goes back to the point before.
    Undo,
    /// Goes on to the point that was undone last.
    Redo,
    /// Forgets the oldest points, as many as are asked for.
    Purge {
        count: u64,
    },
    /// Forgets so many of the oldest points that the block files of the others have at most this many bytes.
    PurgeTo {
        bytes: u64,
    },
    /// Shows the cells of a range, none beyond the track's end.
    Show {
        track: u64,
        from: u64,
        to: u64,
    },
    /// Shows the frames of a range of the mix, none beyond its end.
    Mix {
        from: u64,
        to: u64,
    },
    /// Cuts a range into columns, and shows what a scan of each finds.
    Envelope {
        track: u64,
        from: u64,
        to: u64,
        columns: u64,
    },
    /// Lists the tracks.
    Tracks,
    /// Removes block files that nothing names, those of the lowest ids first: all, or at most as many as the limit.
    Reclaim {
        limit: Option<u64>,
    },
    /// Puts the history into one header of a journal, in the file that is not in use.
    Compact,
    /// Adds a track for each channel of a sound.
    Import {
        name: Name,
    },
    /// Writes the mix as a sound.
    Export {
        name: Name,
    },
    /// Writes the mix as a sound, as it is when the line begins, and lets others have turns meanwhile.
    Bounce {
        name: Name,
    },
}

impl Command {
    /// Whether it is a commit where it is carried out: not where it only looks, copies, reclaims, compacts,
    /// exports or bounces.
    pub fn is_commit(&self) -> bool
        ensures { result ≡ (commits_of (Line self.now) == 1) }
    {
        match self {
            Command::Copy { .. }
            | Command::Show { .. }
            | Command::Mix { .. }
            | Command::Envelope { .. }
            | Command::Tracks
            | Command::Reclaim { .. }
            | Command::Compact
            | Command::Export { .. }
            | Command::Bounce { .. } => false,
            _ => true,
        }
    }
}

/// What one turn may ask of an editor.
#[derive(Debug, Drop)]
pub enum Call {
    /// A line of the script.
    Line {
        command: Command,
    },
    /// The next samples of a recording, at most 16,384, at the end of a track. They are as many pieces as they have
    /// parts of 256 samples, the last part shorter, and each piece is a commit. The tag is the recording's number.
    Piece {
        track: u64,
        tag: u64,
        samples: Samples,
    },
    /// Keeps the current project as it is, by a number.
    Pin,
    /// Asks how many frames the mix of a pin has.
    PinLen {
        pin: u64,
    },
    /// Reads the frames of the mix of a pin, from a place on: as many as are there, at most `count`.
    ReadPin {
        pin: u64,
        from: u64,
        count: u64,
    },
    /// Loads the tracks of a pin that are heard, from a place on: as many frames as are there, at most `count`.
    LoadPin {
        pin: u64,
        from: u64,
        count: u64,
    },
    /// Releases a pin.
    Unpin {
        pin: u64,
    },
}
