// Rows of ids, counted.
ghost use Rattle.std.specs.Prelude.{◌≡◌, ◌⊎◌, ◌+◌, ◌-◌, ◌^◌, ◌<◌, ◌≤◌, ◌∷◌, ◌↔◌, [], ℕ, List, None, Some, IsSome, IsTrue};
ghost use Rattle.std.specs.Prelude.{IfOk, OnOk, OnErr, IfSome, IfNone, length};
ghost use Rattle.block_ledger.specs.Counts.{AreNamed, IsFirstFree, IsNamed, IsNextFree, SetsCount};
ghost use Rattle.block_ledger.specs.Counts.{occurrences, times};
ghost use Rattle.block_ledger.specs.Entries.{FollowsIds, places};
ghost use Rattle.row_ledger.specs.Rows.{AreHad, AreRowsThere, AreThere, Comes, HasSameRoom, counts, ids_at, singles, uses_at};

use super::ids::{drop_ids, hold_ids};
use super::row::Row;
use block_ledger::Ledger;
use pcm_base::NoMemory;
use std::alloc::Global;
use std::marker::Model;

// Rows, each with how often lists have it, over a ledger that counts the ids of each row once, and ids that are held by
// themselves. Contracts see the counts over all lists.
#[derive(Drop)]
pub(crate) struct RowTable {
    ledger: Ledger,
    rows: Vec<Row>,
    // A free place, if there is one.
    free: usize,
}

impl Model for RowTable {
    ghost use Rattle.row_ledger.specs.Rows.{TableState, IsTable};

    ghost Value = { TableState };

    ghost view = { λ t. record { ledger = t.ledger; rows = t.rows.items } };

    ghost invariant = { λ t. IsTable (record { ledger = t.ledger; rows = t.rows.items }) };
}

impl RowTable {
    pub(crate) fn new(alloc: Global) -> RowTable
        ensures counts { (id : ℕ) → counts result id ≡ None }
        ensures singles { (id : ℕ) → singles result id ≡ 0 }
        ensures rows { result.rows ≡ [] }
        ensures places { places result.ledger ≡ 0 }
    {
        RowTable {
            ledger: Ledger::new(alloc),
            rows: Vec::new(alloc),
            free: usize::MAX,
        }
    }

    // The ids of rows that lists have are there.
    pub(crate) fn alloc(&self) -> Global
        ensures there { AreRowsThere self.now }
    {
        *self.rows.allocator()
    }

    // How many places for rows there are.
    pub(crate) fn len(&self) -> usize {
        self.rows.len()
    }

    // Makes room for this many ids.
    pub(crate) fn reserve(&mut self, count: u64) -> Result<(), NoMemory>
        ensures counts { (id : ℕ) → counts self.new id ≡ counts self.old id }
        ensures singles { (id : ℕ) → singles self.new id ≡ singles self.old id }
        ensures rows { self.new.rows ≡ self.old.rows }
        ensures ok { OnOk result (count ≤ self.new.ledger.spare) }
        ensures full { OnErr result (self.old.ledger.spare < count) }
        ensures spare { self.old.ledger.spare ≤ self.new.ledger.spare }
        ensures places { OnOk result (self.old.ledger.spare < count → FollowsIds count self.new.ledger) }
        ensures enough { count ≤ self.old.ledger.spare → places self.new.ledger ≡ places self.old.ledger }
        ensures same { OnErr result (places self.new.ledger ≡ places self.old.ledger) }
    {
        self.ledger.reserve(count)
    }

    pub(crate) fn spare(&self) -> u64
        ensures { result ≡ self.now.ledger.spare }
    {
        self.ledger.spare()
    }

    // The id is there.
    pub(crate) fn has(&self, id: u64) -> bool
        ensures { IsTrue result ↔ IsSome (counts self.now id) }
    {
        self.ledger.count(id).is_some()
    }

    // The id occurs.
    pub(crate) fn is_named(&self, id: u64) -> bool
        ensures { IsTrue result ↔ IsNamed (counts self.now id) }
    {
        match self.ledger.count(id) {
            Some(count) => count > 0,
            None => false,
        }
    }

    pub(crate) fn first_free(&self) -> Option<u64>
        ensures found { IfSome result (IsFirstFree (counts self.now)) }
        ensures none { IfNone result ((id : ℕ) → counts self.now id ≡ Some 0 → ⊥) }
    {
        self.ledger.first_free()
    }

    pub(crate) fn next_free(&self, from: u64) -> Option<u64>
        ensures found { IfSome result (IsNextFree (counts self.now) from) }
        ensures none { IfNone result ((id : ℕ) → from ≤ id → counts self.now id ≡ Some 0 → ⊥) }
    {
        self.ledger.next_free(from)
    }

    pub(crate) fn named_len(&self) -> u64
        ensures ids { (ids : List ℕ) × AreNamed (counts self.now) ids × (result ≡ length ids) }
        ensures any { (ids : List ℕ) → AreNamed (counts self.now) ids → result ≡ length ids }
    {
        self.ledger.named_len()
    }

    // An id is held once more by itself.
    pub(crate) fn hold(&mut self, id: u64)
        requires room { IsSome (counts self.old id) ⊎ (0 < self.old.ledger.spare) }
        requires few { occurrences (counts self.old id) + 1 < 2 ^ 128 }
        ensures counts { SetsCount (counts self.old) (counts self.new) id (Some (occurrences (counts self.old id) + 1)) }
        ensures singles { (other : ℕ) → singles self.new other ≡ singles self.old other + times other (id ∷ []) }
        ensures rows { self.new.rows ≡ self.old.rows }
        ensures spare { self.old.ledger.spare ≤ self.new.ledger.spare + 1 }
        ensures there { IsSome (counts self.old id) → self.new.ledger.spare ≡ self.old.ledger.spare }
        ensures places { places self.new.ledger ≡ places self.old.ledger }
    {
        self.ledger.hold(id);
    }

    // And once less, where it is held by itself.
    pub(crate) fn drop_one(&mut self, id: u64)
        requires { 0 < singles self.old id }
        ensures counts { SetsCount (counts self.old) (counts self.new) id (Some (occurrences (counts self.old id) - 1)) }
        ensures singles { (other : ℕ) → singles self.new other + times other (id ∷ []) ≡ singles self.old other }
        ensures rows { self.new.rows ≡ self.old.rows }
        ensures room { HasSameRoom self.old.ledger self.new.ledger }
    {
        self.ledger.drop_one(id);
    }

    // Takes out an id whose count is 0.
    pub(crate) fn forget(&mut self, id: u64)
        requires { counts self.old id ≡ Some 0 }
        ensures counts { SetsCount (counts self.old) (counts self.new) id None }
        ensures singles { (other : ℕ) → singles self.new other ≡ singles self.old other }
        ensures rows { self.new.rows ≡ self.old.rows }
        ensures room { HasSameRoom self.old.ledger self.new.ledger }
    {
        self.ledger.forget(id);
    }

    // The ids of the row at a place, none where there is no row.
    pub(crate) fn ids(&self, row: usize) -> &[u64]
        ensures { result.now ≡ ids_at self.now.rows row }
    {
        if row >= self.rows.len() {
            return &[];
        }
        self.rows[row].ids.as_slice()
    }

    // A list has the row once more. It fails where too many have it.
    pub(crate) fn hold_row(&mut self, row: usize) -> Result<(), NoMemory>
        requires { 0 < uses_at self.old.rows row }
        ensures ok { OnOk result (Comes self.old self.new (row ∷ [])) }
        ensures err { OnErr result (self.new ≡ self.old) }
        ensures room { HasSameRoom self.old.ledger self.new.ledger }
    {
        let uses = self.rows[row].uses;
        if uses == u64::MAX {
            return Err(NoMemory);
        }
        self.rows[row].uses = uses + 1;
        Ok(())
    }

    // A place without a row.
    fn place(&mut self) -> Result<usize, NoMemory>
        ensures within { IfOk result (λ row. row < length self.new.rows) }
        ensures free { IfOk result (λ row. uses_at self.new.rows row ≡ 0) }
        ensures same { Comes self.old self.new [] }
        ensures room { HasSameRoom self.old.ledger self.new.ledger }
    {
        let place = self.free;
        if place < self.rows.len() && self.rows[place].uses == 0 {
            self.free = self.rows[place].next;
            return Ok(place);
        }
        let row = Row {
            ids: Vec::new(self.alloc()),
            uses: 0,
            next: usize::MAX,
        };
        let place = self.rows.len();
        self.rows.push(row)?;
        Ok(place)
    }

    // Makes a row of these ids, which are all there, for one list.
    pub(crate) fn add_row(&mut self, ids: &[u64]) -> Result<usize, NoMemory>
        requires there { AreThere (counts self.old) ids.now }
        requires few { (id : ℕ) → occurrences (counts self.old id) + times id ids.now < 2 ^ 128 }
        ensures ok { IfOk result (λ row. Comes self.old self.new (row ∷ [])) }
        ensures ids { IfOk result (λ row. ids_at self.new.rows row ≡ ids.now) }
        ensures err { OnErr result (Comes self.old self.new []) }
        ensures room { HasSameRoom self.old.ledger self.new.ledger }
    {
        let copy = Vec::from_slice(self.alloc(), ids)?;
        let place = self.place()?;
        self.write(place, copy);
        Ok(place)
    }

    // Writes the ids of a row that a list has then.
    fn write(&mut self, place: usize, ids: Vec<u64>)
        requires within { place < length self.old.rows }
        requires free { uses_at self.old.rows place ≡ 0 }
        requires there { AreThere (counts self.old) ids.items }
        requires few { (id : ℕ) → occurrences (counts self.old id) + times id ids.items < 2 ^ 128 }
        ensures come { Comes self.old self.new (place ∷ []) }
        ensures ids { ids_at self.new.rows place ≡ ids.items }
        ensures room { HasSameRoom self.old.ledger self.new.ledger }
    {
        hold_ids(&mut self.ledger, ids.as_slice());
        self.rows[place] = Row {
            ids,
            uses: 1,
            next: usize::MAX,
        };
    }

    // A list has the row no more. Where none is left that has it, its ids are dropped. It takes no memory.
    pub(crate) fn drop_row(&mut self, row: usize)
        requires { 0 < uses_at self.old.rows row }
        ensures come { Comes self.new self.old (row ∷ []) }
        ensures room { HasSameRoom self.old.ledger self.new.ledger }
    {
        let uses = self.rows[row].uses;
        if uses > 1 {
            self.rows[row].uses = uses - 1;
        } else {
            self.clear(row);
        }
    }

    // The last list that has the row lets it go.
    fn clear(&mut self, row: usize)
        requires { uses_at self.old.rows row ≡ 1 }
        ensures come { Comes self.new self.old (row ∷ []) }
        ensures room { HasSameRoom self.old.ledger self.new.ledger }
    {
        let empty = Row {
            ids: Vec::new(self.alloc()),
            uses: 0,
            next: self.free,
        };
        drop_ids(&mut self.ledger, self.rows[row].ids.as_slice());
        self.rows[row] = empty;
        self.free = row;
    }

    // Lists have these rows once less each. It takes no memory.
    pub(crate) fn drop_rows(&mut self, rows: &[usize])
        requires { AreHad self.old.rows rows.now }
        ensures come { Comes self.new self.old rows.now }
        ensures room { HasSameRoom self.old.ledger self.new.ledger }
    {
        for row in rows {
            self.drop_row(*row);
        }
    }
}
