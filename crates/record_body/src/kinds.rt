// The kinds of a record: the first byte of its body.

/// An edit that writes out the whole project.
pub const EDIT_KIND: u8 = 1;

/// An undo.
pub const UNDO_KIND: u8 = 2;

/// A redo.
pub const REDO_KIND: u8 = 3;

/// A purge.
pub const PURGE_KIND: u8 = 4;

/// An edit that writes what differs from the current point.
pub const DELTA_KIND: u8 = 5;
