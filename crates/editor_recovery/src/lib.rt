//! Makes and opens projects, and checks their blocks.
//!
//! `open_store` makes a studio of what a disk keeps of a project, and writes nothing. Over an honest disk, one that
//! keeps to the model and each image of which has no project or a whole one, it finds the project that each image
//! keeps; over any other it tells the first fault in the order of the files. `create` makes a project, and a stop
//! within it leaves none or the new one. `check` reads the blocks that the points of a studio name whole.
#![tactic(auto)]

mod checking;
mod counting;
mod creating;
mod disk;
mod fault;
mod finding;
mod laws;
mod listing;
mod measuring;
mod opening;
mod reading;
mod sizes;

pub use checking::check;
pub use creating::create;
pub use fault::OpenFault;
pub use laws::{a_disk_has_one_fault, calls_stay_honest};
pub use opening::open_store;
