// Which of the files 0 and 1 the journal stands in, by the front of each: the first 33 bytes, or all.
ghost use Rattle.std.specs.Prelude.{◌≡◌, ◌⊎◌, ◌↔◌, ◌∷◌, ◌++◌, [], None, Some, IsTrue, IsErrOf, length, ◌≤◌};
ghost use Rattle.project_journal.specs.Choice.{choice_tests, generation_at, newer_than};
ghost use Rattle.project_journal.specs.Fields.{field};
ghost use Rattle.project_journal.specs.Header.{IsProject, Tested};
ghost use Rattle.project_journal.specs.Opening.{Chooses, ChoosesNewer, two_files};

use super::fault::{Damaged, JournalFault};
use super::fields::{u32_at, u64_at};
use super::form::{BASE_VERSION, FILE, MAGIC, OTHER, VERSION, WIDE_VERSION};
use super::header::{first_failure, test};
use pcm_base::COUNTER_LIMIT;

pub(crate) fn is_project(bytes: &[u8]) -> bool
    ensures { IsTrue result ↔ IsProject bytes.now }
{
    bytes.len() >= 33 && bytes[0] != 0
}

// A fault of a field, told of its file.
pub(crate) fn in_file(file: u64, fault: Damaged) -> JournalFault
    ensures { result ≡ JournalFault.Damaged file fault.at fault.want fault.have }
{
    JournalFault::Damaged {
        file,
        at: fault.at,
        want: fault.want,
        have: fault.have,
    }
}

// Version 1 has the first of all generations.
#[tactic(auto, unfolding(crate::specs::Choice::generation_at))]
fn generation_of(bytes: &[u8]) -> u64
    requires { 33 ≤ length bytes.now }
    ensures { result ≡ generation_at bytes.now }
{
    if u32_at(bytes, 5) == VERSION {
        return 0;
    }
    u64_at(bytes, 21)
}

// The magic, the version, and the generation's bound.
#[tactic(auto, unfolding(crate::specs::Choice::choice_tests))]
fn choice_tests_of(bytes: &[u8]) -> [Damaged; 3]
    requires { 33 ≤ length bytes.now }
    ensures { result ≡ choice_tests bytes.now }
{
    let version = u32_at(bytes, 5);
    let generation = generation_of(bytes);
    [
        test(1, MAGIC, u32_at(bytes, 1)),
        test(5, version.max(VERSION).min(WIDE_VERSION), version),
        Damaged {
            at: 21,
            want: generation.min(COUNTER_LIMIT) as u128,
            have: generation as u128,
        },
    ]
}

// That two journals have not the same generation, told of the second.
fn test_newer(first: u64, second: u64) -> Result<(), Damaged>
    ensures { Tested (newer_than first second ∷ []) result }
{
    if first != second {
        return Ok(());
    }
    Err(Damaged {
        at: 21,
        want: second as u128 + 1,
        have: second as u128,
    })
}

// Which of two projects counts.
fn choose_newer(first: &[u8], second: &[u8]) -> Result<u64, JournalFault>
    requires first { IsProject first.now }
    requires second { IsProject second.now }
    ensures chooses { ChoosesNewer first.now second.now result }
    ensures no_fault { IsErrOf result JournalFault.DiskFault → ⊥ }
{
    if let Err(fault) = first_failure(&choice_tests_of(first)) {
        return Err(in_file(FILE, fault));
    }
    if let Err(fault) = first_failure(&choice_tests_of(second)) {
        return Err(in_file(OTHER, fault));
    }
    let (a, b) = (generation_of(first), generation_of(second));
    match test_newer(a, b) {
        Ok(()) => Ok(if a < b { OTHER } else { FILE }),
        Err(fault) => Err(in_file(OTHER, fault)),
    }
}

// The file that the journal stands in, if a project is there.
pub(crate) fn choose(first: &[u8], second: &[u8]) -> Result<Option<u64>, JournalFault>
    ensures chooses { Chooses (two_files first.now second.now) result }
    ensures no_fault { IsErrOf result JournalFault.DiskFault → ⊥ }
{
    match (is_project(first), is_project(second)) {
        (false, false) => Ok(None),
        (true, false) => Ok(Some(FILE)),
        (false, true) => Ok(Some(OTHER)),
        (true, true) => Ok(Some(choose_newer(first, second)?)),
    }
}
