// The fields of a header of version 2 or 3, and their tests.
ghost use Rattle.std.specs.Prelude.{◌≡◌, ◌+◌, ◌-◌, ◌≤◌, ◌++◌, ℕ, List, length, take, replicate};
ghost use Rattle.project_journal.specs.Header.{base_tests, base_tests_in, last_tests_in, base_header_tests};
ghost use Rattle.project_journal.specs.Header.{number_tests, wide_header_tests, wide_tests_in};
ghost use Rattle.project_journal.specs.Header.{base_fields, ends, Tested};

use super::base::Base;
use super::fault::Damaged;
use super::fields::{u8_at, u32_at, u64_at};
use super::form::{BASE_VERSION, WIDE_VERSION};
use super::header::{first_failure, test, tests_of};
use pcm_base::{COUNTER_LIMIT, FIRST_BLOCK, SAMPLE_WIDTH};

// The first 64 bytes, with zeros where there are fewer.
pub(crate) fn head_of(bytes: &[u8]) -> [u8; 64]
    ensures { result ≡ take 64 bytes.now ++ replicate (64 - length bytes.now) 0 }
{
    let mut head = [0u8; 64];
    fill_head(&mut head, bytes);
    head
}

fn fill_head(head: &mut [u8], bytes: &[u8])
    requires { head.old ≡ replicate 64 0 }
    ensures { head.new ≡ take 64 bytes.now ++ replicate (64 - length bytes.now) 0 }
{
    let len = bytes.len().min(64);
    head[..len].copy_from_slice(&bytes[..len]);
}

// What a header of version 2 says of the project before the first record.
pub(crate) fn base_of(head: &[u8]) -> Base
    requires { 64 ≤ length head.now }
    ensures { result ≡ base_fields head.now }
{
    Base {
        generation: u64_at(head, 21),
        commit: u64_at(head, 29),
        next_block: u64_at(head, 37),
        next_track: u64_at(head, 45),
        count: u32_at(head, 53),
        cursor: u32_at(head, 57),
    }
}

// The first test of version 2 that fails.
pub(crate) fn test_second(bytes: &[u8]) -> Result<(), Damaged>
    requires { 32 ≤ length bytes.now }
    ensures { Tested (base_header_tests bytes.now) result }
{
    test_later(
        bytes,
        BASE_VERSION,
        &last_tests_of(&head_of(bytes), bytes.len()),
    )
}

// The first test of version 3 that fails.
pub(crate) fn test_third(bytes: &[u8]) -> Result<(), Damaged>
    requires { 32 ≤ length bytes.now }
    ensures { Tested (wide_header_tests bytes.now) result }
{
    test_later(
        bytes,
        WIDE_VERSION,
        &wide_tests_of(&head_of(bytes), bytes.len()),
    )
}

// The first test that fails of a version that has a base, with these tests after those of the base.
fn test_later(bytes: &[u8], version: u32, last: &[Damaged]) -> Result<(), Damaged>
    requires { 32 ≤ length bytes.now }
    ensures { Tested (number_tests version bytes.now ++ (base_tests bytes.now ++ last.now)) result }
{
    match first_failure(&tests_of(bytes, version)) {
        Ok(()) => test_base(bytes, last),
        Err(damaged) => Err(damaged),
    }
}

// The same after the fields that all versions have.
fn test_base(bytes: &[u8], last: &[Damaged]) -> Result<(), Damaged>
    ensures { Tested (base_tests bytes.now ++ last.now) result }
{
    match first_failure(&base_tests_of(&head_of(bytes), bytes.len())) {
        Ok(()) => first_failure(last),
        Err(damaged) => Err(damaged),
    }
}

// The width of a sample and 2 zeros, that they are there, and then their values.
#[tactic(auto, unfolding(crate::specs::Header::wide_tests_in))]
fn wide_tests_of(head: &[u8], len: usize) -> [Damaged; 5]
    requires { 64 ≤ length head.now }
    ensures { result ≡ wide_tests_in len head.now }
{
    [
        ends_in(61, 1, len),
        test(61, SAMPLE_WIDTH, u8_at(head, 61) as u32),
        ends_in(62, 2, len),
        test(62, 0, u8_at(head, 62) as u32),
        test(63, 0, u8_at(head, 63) as u32),
    ]
}

// In a file of this many bytes, a field has to be there.
fn ends_in(at: u64, size: u64, len: usize) -> Damaged
    requires { at + size ≤ COUNTER_LIMIT }
    ensures { result ≡ ends at size len }
{
    let end = at + size;
    Damaged {
        at,
        want: end as u128,
        have: end.min(len as u64) as u128,
    }
}

fn test_long(at: u64, want: u64, have: u64) -> Damaged
    ensures { result ≡ record { at = at; want = want; have = have } }
{
    Damaged {
        at,
        want: want as u128,
        have: have as u128,
    }
}

// For each field that it has to be there, and then its value.
#[tactic(auto, unfolding(crate::specs::Header::base_tests_in))]
fn base_tests_of(head: &[u8], len: usize) -> [Damaged; 11]
    requires { 64 ≤ length head.now }
    ensures { result ≡ base_tests_in len head.now }
{
    let base = base_of(head);
    let depth = u32_at(head, 17);
    [
        test_long(21, base.generation.min(COUNTER_LIMIT), base.generation),
        ends_in(29, 8, len),
        test_long(29, base.commit.min(COUNTER_LIMIT), base.commit),
        ends_in(37, 8, len),
        test_long(
            37,
            base.next_block.max(FIRST_BLOCK).min(COUNTER_LIMIT),
            base.next_block,
        ),
        ends_in(45, 8, len),
        test_long(
            45,
            base.next_track.max(1).min(COUNTER_LIMIT),
            base.next_track,
        ),
        ends_in(53, 4, len),
        test(53, base.count.max(1).min(depth), base.count),
        ends_in(57, 4, len),
        test(
            57,
            base.cursor.min(base.count.saturating_sub(1)),
            base.cursor,
        ),
    ]
}

// 3 zeros, that they are there, and then their values.
#[tactic(auto, unfolding(crate::specs::Header::last_tests_in))]
fn last_tests_of(head: &[u8], len: usize) -> [Damaged; 4]
    requires { 64 ≤ length head.now }
    ensures { result ≡ last_tests_in len head.now }
{
    [
        ends_in(61, 3, len),
        test(61, 0, u8_at(head, 61) as u32),
        test(62, 0, u8_at(head, 62) as u32),
        test(63, 0, u8_at(head, 63) as u32),
    ]
}
