// Counts by id.
ghost use Rattle.std.specs.Prelude.{◌≡◌, ◌⊎◌, ◌+◌, ◌-◌, ◌^◌, ◌<◌, ◌≤◌, max, ℕ, None, Some, IsSome, IfSome, IfNone};
ghost use Rattle.std.specs.Prelude.{IfOk, IfErr, OnOk, OnErr, List, [], ◌∷◌, length, map, slice_set};
ghost use Rattle.std.specs.Prelude.{slice_index_or, vec_capacity};
ghost use Rattle.std.specs.List.{insert, filter};
ghost use Rattle.block_ledger.specs.declared.entry.Entry.{Entry};
ghost use Rattle.block_ledger.specs.Counts.{AreNamed, IsFirstFree, IsFreshCount, IsNamed, IsNextFree, SetsCount};
ghost use Rattle.block_ledger.specs.Counts.{one_less, one_more};
ghost use Rattle.block_ledger.specs.Entries.{FollowsIds, IsAt, IsFrom, IsGap, IsLeaves, IsRising, count_of, free_of};
ghost use Rattle.block_ledger.specs.Entries.{id_at};
ghost use Rattle.block_ledger.specs.Entries.{is_kept, places, with_count};

use super::entry::{Entry, lowered, raised};
use super::tree::LeastTree;
use pcm_base::{COUNTER_LIMIT, NoMemory, Numbers};
use std::alloc::{AllocError, Global};
use std::marker::Model;

/// How often each id occurs. An id that occurs no more keeps its count of 0, until it is taken out.
///
/// Contracts see the count of each id, none where the ledger does not have it, and for how many more ids there is room.
#[derive(Drop)]
pub struct Ledger {
    entries: Vec<Entry>,
    free: LeastTree,
    // The place after the entry whose count was written last.
    next: usize,
}

impl Model for Ledger {
    ghost use Rattle.std.specs.Prelude.{◌-◌, length, vec_capacity};
    ghost use Rattle.block_ledger.specs.Entries.{LedgerState, IsLedger};

    ghost Value = { LedgerState };

    ghost view = { λ l. record { entries = l.entries.items; spare = length l.free - length l.entries.items } };

    ghost invariant = { λ l. IsLedger l.entries.items l.free (vec_capacity l.entries) };
}

impl Ledger {
    /// A ledger without ids.
    pub fn new(alloc: Global) -> Ledger
        ensures counts { (id : ℕ) → count_of result id ≡ None }
        ensures fresh { IsFreshCount [] (count_of result) }
        ensures places { places result ≡ 0 }
    {
        Ledger {
            entries: Vec::new(alloc),
            free: LeastTree::new(alloc),
            next: 0,
        }
    }

    /// Makes room for this many ids that the ledger does not have. It takes memory only where there is too little, and
    /// then for the ids that are there, and for the new ones or as many again: ids that were taken out cost nothing.
    pub fn reserve(&mut self, count: u64) -> Result<(), NoMemory>
        ensures counts { (id : ℕ) → count_of self.new id ≡ count_of self.old id }
        ensures ok { OnOk result (count ≤ self.new.spare) }
        ensures full { OnErr result (self.old.spare < count) }
        ensures spare { self.old.spare ≤ self.new.spare }
        ensures places { OnOk result (self.old.spare < count → FollowsIds count self.new) }
        ensures enough { count ≤ self.old.spare → places self.new ≡ places self.old }
        ensures same { OnErr result (places self.new ≡ places self.old) }
    {
        if count <= self.spare() {
            return Ok(());
        }
        let alloc = *self.entries.allocator();
        let places = places_for(kept_len(&self.entries), count)?;
        let entries = kept_entries(alloc, &self.entries, places)?;
        let mut free = LeastTree::with_leaves(alloc, places)?;
        refresh(&entries, &mut free, 0);
        self.entries = entries;
        self.free = free;
        Ok(())
    }

    /// For how many ids more there is room.
    pub fn spare(&self) -> u64
        ensures { result ≡ self.now.spare }
    {
        (self.free.len() - self.entries.len()) as u64
    }

    /// Counts one occurrence more. The ledger has the id, or room for one.
    pub fn hold(&mut self, id: u64)
        requires { IsSome (count_of self.old id) ⊎ (0 < self.old.spare) }
        ensures counts { SetsCount (count_of self.old) (count_of self.new) id (Some (one_more (count_of self.old id))) }
        ensures spare { self.old.spare ≤ self.new.spare + 1 }
        ensures there { IsSome (count_of self.old id) → self.new.spare ≡ self.old.spare }
        ensures fresh { (ids : List ℕ) → length ids < 2 ^ 128 - 1 → IsFreshCount ids (count_of self.old) →
            IsFreshCount (id ∷ ids) (count_of self.new) }
        ensures places { places self.new ≡ places self.old }
    {
        match self.position(id) {
            Ok(i) => self.set_count(i, raised(self.count_at(i))),
            Err(i) => self.add(i, id),
        }
    }

    /// Counts one occurrence less, of an id that has one.
    pub fn drop_one(&mut self, id: u64)
        requires { IsNamed (count_of self.old id) }
        ensures counts { SetsCount (count_of self.old) (count_of self.new) id (Some (one_less (count_of self.old id))) }
        ensures spare { self.new.spare ≡ self.old.spare }
        ensures fresh { (ids : List ℕ) → IsFreshCount (id ∷ ids) (count_of self.old) →
            IsFreshCount ids (count_of self.new) }
        ensures places { places self.new ≡ places self.old }
    {
        if let Ok(i) = self.position(id) {
            self.set_count(i, lowered(self.count_at(i)));
        }
    }

    /// Takes out an id whose count is 0.
    pub fn forget(&mut self, id: u64)
        requires { count_of self.old id ≡ Some 0 }
        ensures counts { SetsCount (count_of self.old) (count_of self.new) id None }
        ensures spare { self.new.spare ≡ self.old.spare }
        ensures fresh { (ids : List ℕ) → IsFreshCount ids (count_of self.old) →
            IsFreshCount ids (count_of self.new) }
        ensures places { places self.new ≡ places self.old }
    {
        if let Ok(i) = self.position(id) {
            self.set_count(i, None);
        }
    }

    /// The count of an id, none where the ledger does not have it.
    pub fn count(&self, id: u64) -> Option<u128>
        ensures { result ≡ count_of self.now id }
    {
        match self.position(id) {
            Ok(i) => self.count_at(i),
            Err(_) => None,
        }
    }

    /// The least id whose count is 0.
    pub fn first_free(&self) -> Option<u64>
        ensures found { IfSome result (IsFirstFree (count_of self.now)) }
        ensures none { IfNone result ((id : ℕ) → count_of self.now id ≡ Some 0 → ⊥) }
    {
        self.free.least()
    }

    /// The least id from `from` on whose count is 0.
    pub fn next_free(&self, from: u64) -> Option<u64>
        ensures found { IfSome result (IsNextFree (count_of self.now) from) }
        ensures none { IfNone result ((id : ℕ) → from ≤ id → count_of self.now id ≡ Some 0 → ⊥) }
    {
        self.free.least_from(self.place_from(from))
    }

    /// How many ids occur. It takes no memory.
    pub fn named_len(&self) -> u64
        ensures ids { (ids : List ℕ) × AreNamed (count_of self.now) ids × (result ≡ length ids) }
        ensures any { (ids : List ℕ) → AreNamed (count_of self.now) ids → result ≡ length ids }
    {
        let mut named = 0;
        for entry in &self.entries {
            if entry.is_named() {
                named += 1;
            }
        }
        named
    }

    // The place of an id among the entries, or the place to which it would go. Blocks are mostly counted in the order
    // of their ids, so the next place is looked at first.
    fn position(&self, id: u64) -> Result<usize, usize>
        ensures rising { IsRising self.now.entries }
        ensures found { IfOk result (IsAt self.now.entries id) }
        ensures absent { IfErr result (IsGap self.now.entries id) }
    {
        match self.entries.get(self.next) {
            Some(entry) if entry.id == id => Ok(self.next),
            _ => self.entries.binary_search_by_key(&id, |entry| entry.id),
        }
    }

    // The place of the first entry whose id is `from` or above.
    fn place_from(&self, from: u64) -> usize
        ensures { IsFrom self.now.entries from result }
    {
        match self.position(from) {
            Ok(place) | Err(place) => place,
        }
    }

    fn count_at(&self, i: usize) -> Option<u128>
        requires { i < length self.now.entries }
        ensures { (d : Entry) → result ≡ (slice_index_or self.now.entries i d).count }
    {
        self.entries[i].count
    }

    // Writes the count of an entry, and its leaf.
    fn set_count(&mut self, i: usize, count: Option<u128>)
        requires { i < length self.old.entries }
        ensures entries { self.new.entries ≡ slice_set self.old.entries i (with_count self.old.entries i count) }
        ensures spare { self.new.spare ≡ self.old.spare }
    {
        self.entries[i].count = count;
        self.free.set(i, self.entries[i].free_id());
        self.next = i + 1;
    }

    // Adds an id that occurs once, in its place.
    fn add(&mut self, i: usize, id: u64)
        requires gap { IsGap self.old.entries id i }
        requires room { 0 < self.old.spare }
        ensures entries { self.new.entries ≡ insert self.old.entries i (record { id = id; count = Some 1 }) }
        ensures spare { self.new.spare + 1 ≡ self.old.spare }
    {
        let count = Some(1);
        let _ = self.entries.insert(i, Entry { id, count });
        refresh(&self.entries, &mut self.free, i);
    }
}

// How many places are made for the ids that are there and `count` more: as many more as there are at least, so that
// they are made seldom.
fn places_for(there: usize, count: u64) -> Result<usize, NoMemory>
    requires { there < COUNTER_LIMIT }
    ensures { IfOk result (λ places. (places ≡ there + max count there) × (places < COUNTER_LIMIT)) }
{
    let room = COUNTER_LIMIT as usize - 1 - there;
    if count > room as u64 || there > room {
        return Err(NoMemory);
    }
    Ok(there + (count as usize).max(there))
}

// How many ids were not taken out.
fn kept_len(entries: &[Entry]) -> usize
    requires few { length entries.now < COUNTER_LIMIT }
    ensures value { result ≡ length (filter is_kept entries.now) }
    ensures most { result ≤ length entries.now }
{
    let mut len = 0;
    for entry in entries {
        if entry.is_kept() {
            len += 1;
        }
    }
    len
}

// The entries of ids that were not taken out, in a row with this many places.
fn kept_entries(alloc: Global, entries: &[Entry], places: usize) -> Result<Vec<Entry>, AllocError>
    ensures items { IfOk result (λ v. v.items ≡ filter is_kept entries.now) }
    ensures room { IfOk result (λ v. places ≤ vec_capacity v) }
{
    let mut kept = Vec::with_capacity(alloc, places)?;
    for entry in entries {
        if entry.is_kept() {
            kept.push(*entry)?;
        }
    }
    Ok(kept)
}

// Writes the leaves of the entries from a place on, where those before are as they have to be.
fn refresh(entries: &[Entry], free: &mut LeastTree, from: usize)
    requires few { length entries.now ≤ length free.old }
    requires before { (i : ℕ) → i < from
        → slice_index_or free.old i None ≡ slice_index_or (map free_of entries.now) i None }
    requires behind { (i : ℕ) → length entries.now ≤ i → slice_index_or free.old i None ≡ None }
    ensures leaves { IsLeaves entries.now free.new }
    ensures len { length free.new ≡ length free.old }
{
    for i in from..entries.len() {
        free.set(i, entries[i].free_id());
    }
}
