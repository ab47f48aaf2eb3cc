// Counts of ids over lists that share rows.
ghost use Rattle.std.specs.Prelude.{◌≡◌, ◌⊎◌, ◌+◌, ◌-◌, ◌^◌, ◌<◌, ◌≤◌, ◌∷◌, ◌↔◌, ◌++◌, [], ℕ, List, None, Some, IsSome};
ghost use Rattle.std.specs.Prelude.{IsTrue, IfOk, IfErr, OnOk, OnErr, IfSome, IfNone, length, vec_capacity, vec_len};
ghost use Rattle.std.specs.Prelude.{is_some};
ghost use Rattle.std.specs.List.{insert};
ghost use Rattle.block_ledger.specs.Counts.{AreNamed, IsFirstFree, IsFreshCount, IsNamed, IsNextFree, SetsCount};
ghost use Rattle.block_ledger.specs.Counts.{occurrences, times};
ghost use Rattle.row_ledger.specs.declared.row.Row.{Row};
ghost use Rattle.row_ledger.specs.Rows.{AreHad, AreThere, Comes, HasSameRoom, flat};
ghost use Rattle.row_ledger.specs.Lists.{HasPlaces, IsAt, IsGap, IsRising, IsSame, ListComes, ListGoes, all_rows, counts_of};
ghost use Rattle.row_ledger.specs.Lists.{ids_or_none, list_like, list_of, listed, places_of, singles_of, spare_of};

use super::likes::lay_like;
use super::row::Listed;
use super::table::RowTable;
use pcm_base::NoMemory;
use std::alloc::Global;
use std::marker::Model;

/// How often each id occurs in lists, and by itself. Lists share rows of ids, and a list that is like another one costs
/// a step for each row that it shares and for each id that it does not.
///
/// Contracts see the count of each id, how often it is held by itself, and the list of each number.
#[derive(Drop)]
pub struct RowLedger {
    table: RowTable,
    lists: Vec<Listed>,
}

impl Model for RowLedger {
    ghost use Rattle.row_ledger.specs.Lists.{IsRows, RowsState};

    ghost Value = { RowsState };

    ghost view = { λ l. record { table = l.table; lists = l.lists.items } };

    ghost invariant = { λ l. IsRows l.table l.lists.items };
}

impl RowLedger {
    /// A ledger without ids and lists.
    pub fn new(alloc: Global) -> RowLedger
        ensures counts { (id : ℕ) → counts_of result id ≡ None }
        ensures singles { (id : ℕ) → singles_of result id ≡ 0 }
        ensures lists { (number : ℕ) → list_of result number ≡ None }
        ensures fresh { IsFreshCount [] (counts_of result) }
        ensures places { places_of result ≡ 0 }
    {
        RowLedger {
            table: RowTable::new(alloc),
            lists: Vec::new(alloc),
        }
    }

    /// Makes room for this many ids that the ledger does not have. It takes memory only where there is too little, and
    /// then for the ids that are there, and for the new ones or as many again: ids that were taken out cost nothing.
    pub fn reserve(&mut self, count: u64) -> Result<(), NoMemory>
        ensures counts { (id : ℕ) → counts_of self.new id ≡ counts_of self.old id }
        ensures singles { (id : ℕ) → singles_of self.new id ≡ singles_of self.old id }
        ensures lists { (number : ℕ) → list_of self.new number ≡ list_of self.old number }
        ensures ok { OnOk result (count ≤ spare_of self.new) }
        ensures full { OnErr result (spare_of self.old < count) }
        ensures spare { spare_of self.old ≤ spare_of self.new }
        ensures places { OnOk result (spare_of self.old < count → HasPlaces count self.new) }
        ensures enough { count ≤ spare_of self.old → places_of self.new ≡ places_of self.old }
        ensures same { OnErr result (places_of self.new ≡ places_of self.old) }
    {
        self.table.reserve(count)
    }

    /// For how many ids more there is room.
    pub fn spare(&self) -> u64
        ensures { result ≡ spare_of self.now }
    {
        self.table.spare()
    }

    /// Whether the ledger has an id.
    pub fn has(&self, id: u64) -> bool
        ensures { IsTrue result ↔ IsSome (counts_of self.now id) }
    {
        self.table.has(id)
    }

    /// Whether an id occurs.
    pub fn is_named(&self, id: u64) -> bool
        ensures { IsTrue result ↔ IsNamed (counts_of self.now id) }
    {
        self.table.is_named(id)
    }

    /// The least id whose count is 0.
    pub fn first_free(&self) -> Option<u64>
        ensures found { IfSome result (IsFirstFree (counts_of self.now)) }
        ensures none { IfNone result ((id : ℕ) → counts_of self.now id ≡ Some 0 → ⊥) }
    {
        self.table.first_free()
    }

    /// The least id from `from` on whose count is 0.
    pub fn next_free(&self, from: u64) -> Option<u64>
        ensures found { IfSome result (IsNextFree (counts_of self.now) from) }
        ensures none { IfNone result ((id : ℕ) → from ≤ id → counts_of self.now id ≡ Some 0 → ⊥) }
    {
        self.table.next_free(from)
    }

    /// How many ids occur. It takes no memory.
    pub fn named_len(&self) -> u64
        ensures ids { (ids : List ℕ) × AreNamed (counts_of self.now) ids × (result ≡ length ids) }
        ensures any { (ids : List ℕ) → AreNamed (counts_of self.now) ids → result ≡ length ids }
    {
        self.table.named_len()
    }

    /// An id is held once more by itself. The ledger has the id, or room for one. It takes no memory.
    pub fn hold(&mut self, id: u64)
        requires room { IsSome (counts_of self.old id) ⊎ (0 < spare_of self.old) }
        requires few { occurrences (counts_of self.old id) + 1 < 2 ^ 128 }
        ensures counts { SetsCount (counts_of self.old) (counts_of self.new) id
            (Some (occurrences (counts_of self.old id) + 1)) }
        ensures singles { (other : ℕ) → singles_of self.new other ≡ singles_of self.old other + times other (id ∷ []) }
        ensures lists { (number : ℕ) → list_of self.new number ≡ list_of self.old number }
        ensures spare { spare_of self.old ≤ spare_of self.new + 1 }
        ensures there { IsSome (counts_of self.old id) → spare_of self.new ≡ spare_of self.old }
        ensures fresh { (ids : List ℕ) → IsFreshCount ids (counts_of self.old)
            → IsFreshCount (id ∷ ids) (counts_of self.new) }
        ensures places { places_of self.new ≡ places_of self.old }
    {
        self.table.hold(id);
    }

    /// An id that is held by itself is held once less. It takes no memory.
    pub fn drop_one(&mut self, id: u64)
        requires { 0 < singles_of self.old id }
        ensures counts { SetsCount (counts_of self.old) (counts_of self.new) id
            (Some (occurrences (counts_of self.old id) - 1)) }
        ensures singles { (other : ℕ) → singles_of self.new other + times other (id ∷ []) ≡ singles_of self.old other }
        ensures lists { (number : ℕ) → list_of self.new number ≡ list_of self.old number }
        ensures spare { spare_of self.new ≡ spare_of self.old }
        ensures fresh { (ids : List ℕ) → IsFreshCount (id ∷ ids) (counts_of self.old)
            → IsFreshCount ids (counts_of self.new) }
        ensures places { places_of self.new ≡ places_of self.old }
    {
        self.table.drop_one(id);
    }

    /// Takes out an id whose count is 0. It takes no memory.
    pub fn forget(&mut self, id: u64)
        requires { counts_of self.old id ≡ Some 0 }
        ensures counts { SetsCount (counts_of self.old) (counts_of self.new) id None }
        ensures singles { (other : ℕ) → singles_of self.new other ≡ singles_of self.old other }
        ensures lists { (number : ℕ) → list_of self.new number ≡ list_of self.old number }
        ensures spare { spare_of self.new ≡ spare_of self.old }
        ensures fresh { (ids : List ℕ) → IsFreshCount ids (counts_of self.old)
            → IsFreshCount ids (counts_of self.new) }
        ensures places { places_of self.new ≡ places_of self.old }
    {
        self.table.forget(id);
    }

    /// A number comes to have a list of ids that the ledger has: the first `front` ids of the list of the number `base`
    /// and the last `back` of them, none where it has no list, and those of `middle` between. The lists share the rows of
    /// the ids that they both have. Where `front` and `back` are 0, they share the rows in which they are found to be the
    /// same at their front and at their end.
    ///
    /// # Errors
    ///
    /// There is too little memory, or too many lists have a row. Nothing changes then.
    pub fn hold_list(
        &mut self,
        number: u64,
        base: u64,
        front: usize,
        back: usize,
        middle: &[u64],
    ) -> Result<(), NoMemory>
        requires new { list_of self.old number ≡ None }
        requires within { front + back ≤ length (ids_or_none (list_of self.old base)) }
        requires there { AreThere (counts_of self.old) (list_like self.old base front back middle.now) }
        requires few { (id : ℕ) → occurrences (counts_of self.old id)
            + times id (list_like self.old base front back middle.now) < 2 ^ 128 }
        ensures ok { OnOk result (ListComes self.old self.new number
            (list_like self.old base front back middle.now)) }
        ensures fresh { OnOk result ((xs : List ℕ) → IsFreshCount xs (counts_of self.old)
            → IsFreshCount (list_like self.old base front back middle.now ++ xs) (counts_of self.new)) }
        ensures err { OnErr result (IsSame self.old self.new) }
    {
        let place = self.gap(number);
        self.lists.reserve(1)?;
        let base = rows_of(self.lists.as_slice(), base);
        let mut rows = Vec::new(self.table.alloc());
        let laid = lay_like(&mut self.table, &mut rows, base, front, back, middle);
        let list = Listed { number, rows };
        finish(&mut self.table, &mut self.lists, place, list, laid)
    }

    /// A number has its list no more. It takes no memory.
    pub fn drop_list(&mut self, number: u64)
        ghost xs: { List ℕ }
        requires { list_of self.old number ≡ Some xs }
        ensures goes { ListGoes self.old self.new number xs }
        ensures fresh { (ys : List ℕ) → IsFreshCount (xs ++ ys) (counts_of self.old)
            → IsFreshCount ys (counts_of self.new) }
    {
        if let Ok(place) = self.position(number) {
            let list = self.lists.remove(place);
            self.table.drop_rows(list.rows.as_slice());
        }
    }

    /// Whether a number has a list.
    pub fn has_list(&self, number: u64) -> bool
        ensures { result ≡ is_some (list_of self.now number) }
    {
        self.position(number).is_ok()
    }

    /// Where the ledger has its memory from.
    pub fn alloc(&self) -> Global {
        self.table.alloc()
    }

    /// How many places for rows there are, those that are free among them.
    pub fn rows_len(&self) -> usize {
        self.table.len()
    }

    // The place of the list of a number, or the place to which one would go.
    fn position(&self, number: u64) -> Result<usize, usize>
        ensures found { IfOk result (IsAt self.now.lists number) }
        ensures absent { IfErr result (IsGap self.now.lists number) }
        ensures none { OnErr result (list_of self.now number ≡ None) }
    {
        self.lists.binary_search_by_key(&number, |list| list.number)
    }

    // The place to which the list of a number goes that has none.
    fn gap(&self, number: u64) -> usize
        requires { list_of self.now number ≡ None }
        ensures { IsGap self.now.lists number result }
    {
        match self.position(number) {
            Ok(place) | Err(place) => place,
        }
    }
}

// The rows of the list of a number, none where it has no list.
fn rows_of(lists: &[Listed], number: u64) -> &[usize]
    requires { IsRising lists.now }
    ensures among { (k : ℕ) → times k result.now ≤ times k (all_rows lists.now) }
    ensures ids { (rows : List Row) → flat rows result.now ≡ ids_or_none (listed rows lists.now number) }
{
    match lists.binary_search_by_key(&number, |list| list.number) {
        Ok(at) => lists[at].rows.as_slice(),
        Err(_) => &[],
    }
}

// The rows that were laid become the list of a number, or go again.
fn finish(
    table: &mut RowTable,
    lists: &mut Vec<Listed>,
    place: usize,
    list: Listed,
    laid: Result<(), NoMemory>,
) -> Result<(), NoMemory>
    requires had { AreHad table.old.rows list.rows.items }
    requires within { place ≤ vec_len lists.old }
    requires room { vec_len lists.old < vec_capacity lists.old }
    ensures ok { OnOk result ((table.new ≡ table.old) × (lists.new.items ≡ insert lists.old.items place list)) }
    ensures err { OnErr result (Comes table.new table.old list.rows.items × (lists.new.items ≡ lists.old.items)) }
    ensures same { result ≡ laid }
    ensures room { HasSameRoom table.old.ledger table.new.ledger }
{
    if laid.is_err() {
        table.drop_rows(list.rows.as_slice());
        return laid;
    }
    let _ = lists.insert(place, list);
    laid
}
