//! A fresh project on a disk in memory, and the large scripts that are made of numbers, run on one.
//!
//! `fresh_studio` makes a project and opens it: its studio is that of the model's fresh project, and what is left of
//! the disk's room is known. `run_generated` carries out the script of a number on such a project and tells the sum of
//! it. Both end for want of memory alone: the disk never fails, by contract.
#![tactic(auto)]

mod disk;
mod fresh;
mod generated;
mod lines;
mod script;
mod summing;

pub use fresh::{FreshProject, fresh_studio};
pub use generated::run_generated;
