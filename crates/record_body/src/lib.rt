//! The body of a record, which says in the journal what a project became. docs/FORMATS.md has the table of the body.
//!
//! The layers above use `write_body`, which gives the one spelling of a body, and `read_body`, which gives the body of a
//! spelling, or the first field that is not as it has to be. No disk is used here: bytes come and go as vectors and
//! slices. `specs/Kept.antt` says which project a disk keeps: that to which the records of its journal lead.
#![tactic(auto)]

mod body;
mod bounds;
mod changes;
mod changes_measuring;
mod changes_reading;
mod changes_writing;
mod delta_reading;
mod kinds;
mod laws;
mod limits;
mod measuring;
mod old_blocks;
mod point_reading;
mod reading;
mod reading_clips;
mod tails_reading;
mod writing;

pub use body::Body;
pub use changes_writing::{delta_len, write_delta_body};
pub use delta_reading::read_delta_body;
pub use kinds::{DELTA_KIND, EDIT_KIND, PURGE_KIND, REDO_KIND, UNDO_KIND};
pub use laws::{
    a_packed_journal_keeps_its_project, batches_lead, disks_keep_one_project,
    the_writer_tells_each_track, what_is_written_is_read, what_passes_may_come_next,
};
pub use limits::{BadBody, Before};
pub use point_reading::read_point;
pub use reading::read_body;
pub use writing::{body_len, point_len, write_body, write_point};
