// The body of a record, in the way of the journal's version.
ghost use Rattle.std.specs.Prelude.{◌≡◌, ◌⊎◌, ℕ, ◌+◌, ◌*◌, ◌≤◌, ◌<◌, ◌^◌, List, ◌++◌, length, replicate, vec_capacity};
ghost use Rattle.std.specs.Prelude.{IfErr, IfOk, OnOk};
ghost use Rattle.pcm_base.specs.declared.limits.TheConstants.{COUNTER_LIMIT, LONGEST_BODY};
ghost use Rattle.project_journal.specs.Journal.{AreWaiting};
ghost use Rattle.record_body.specs.Batches.{with_point};
ghost use Rattle.record_body.specs.Saved.{current_tracks};
ghost use Rattle.project_state.specs.Numbers.{AgreeById};
ghost use Rattle.record_body.specs.Numbers.{BodyAgrees, BodyKeeps};
ghost use Rattle.editor_state.specs.Adding.{ExceedsBy};
ghost use Rattle.editor_state.specs.Bodies.{all_bytes, all_len, body_bytes, single, whole_len, writing};
ghost use Rattle.editor_core.specs.Core.{core_of};

use super::current::current_of;
use super::studio::Studio;
use clip_track::Kept;
use disk_model::Store;
use pcm_base::{NoMemory, Refusal};
use project_journal::add_record;
use record_body::{Body, body_len, delta_len, write_body, write_delta_body};

// The version whose records are written out whole.
const WHOLE_VERSION: u32 = 1;

impl<S: Store> Studio<S> {
    // How many bytes it has. Its tracks keep as many blocks of the current ones as `kept` says.
    fn body_size(&self, body: &Body, kept: Kept) -> usize
        requires numbers { BodyAgrees (current_tracks self.now.history.history) body.now }
        requires kept { BodyKeeps kept (current_tracks self.now.history.history) body.now }
        ensures value { result ≡ length (body_bytes (core_of self.now) body.now) }
        ensures few { result ≤ 2 ^ 45 }
    {
        if self.version == WHOLE_VERSION {
            return body_len(body);
        }
        delta_len(body, current_of(&self.history), kept)
    }

    // Whether the journal has the places for a record with this body, and it is short enough, also written out whole.
    // It returns how many bytes the body has.
    pub(crate) fn may_record(&self, body: &Body, kept: Kept) -> Result<usize, Refusal>
        requires numbers { BodyAgrees (current_tracks self.now.history.history) body.now }
        requires kept { BodyKeeps kept (current_tracks self.now.history.history) body.now }
        requires end { self.now.journal_end ≤ COUNTER_LIMIT }
        ensures value { IfOk result (λ len. len ≡ length (body_bytes (core_of self.now) body.now)) }
        ensures place { IfOk result (λ len. self.now.journal_end + (6 + len) ≤ COUNTER_LIMIT) }
        ensures short { IfOk result (λ len. len ≤ LONGEST_BODY) }
        ensures err { IfErr result (ExceedsBy self.now.journal_end (whole_len (core_of self.now) (single body.now))
            (length (body_bytes (core_of self.now) body.now))) }
    {
        self.may_add(body_len(body) as u64)?;
        let len = self.body_size(body, kept);
        self.may_add(len as u64)?;
        Ok(len)
    }

    // A body that says the current point and else the same.
    fn again(&self, body: &Body) -> Result<Body, NoMemory>
        ensures { IfOk result (λ b. b ≡ with_point (current_tracks self.now.history.history) body.now) }
    {
        match *body {
            Body::Edit {
                tag,
                next_block,
                next_track,
                ..
            } => Ok(Body::Edit {
                tag,
                next_block,
                next_track,
                point: self.current().copy()?,
            }),
            Body::Undo => Ok(Body::Undo),
            Body::Redo => Ok(Body::Redo),
            Body::Purge { n } => Ok(Body::Purge { n }),
        }
    }

    // How many bytes it has written out whole, and this many before it that say the current point: without the gate of
    // the first and the length of its body.
    pub(crate) fn whole_size(&self, body: &Body, more: u64) -> Result<u64, NoMemory>
        requires few { more < 64 }
        ensures value { IfOk result (λ len. len ≡ whole_len (core_of self.now) (writing more body.now)) }
        ensures small { IfOk result (λ len. len ≤ 2 ^ 53) }
    {
        if more == 0 {
            return Ok(body_len(body) as u64);
        }
        let again = self.again(body)?;
        Ok(len_together(more, body_len(&again), body_len(body)))
    }

    // The same as `may_record` of records that come together, this many before the last. It returns how many bytes they
    // have without the gate of the first and the length of its body.
    pub(crate) fn may_write(&self, body: &Body, more: u64, kept: Kept) -> Result<u64, Refusal>
        requires numbers { BodyAgrees (current_tracks self.now.history.history) body.now }
        requires kept { BodyKeeps kept (current_tracks self.now.history.history) body.now }
        requires again { AgreeById (current_tracks self.now.history.history) (current_tracks self.now.history.history) }
        requires end { self.now.journal_end ≤ COUNTER_LIMIT }
        requires few { more < 64 }
        ensures value { IfOk result (λ len. len ≡ all_len (core_of self.now) (writing more body.now)) }
        ensures place { IfOk result (λ len. self.now.journal_end + (6 + len) ≤ COUNTER_LIMIT) }
        ensures short { IfOk result (λ len. len ≤ LONGEST_BODY) }
        ensures err { IfErr result (λ why. (why ≡ Refusal.NoMemory)
            ⊎ ExceedsBy self.now.journal_end (whole_len (core_of self.now) (writing more body.now))
            (all_len (core_of self.now) (writing more body.now)) why) }
    {
        if more == 0 {
            let len = self.may_record(body, kept)?;
            return Ok(len as u64);
        }
        let again = self.again(body)?;
        self.may_add(len_together(more, body_len(&again), body_len(body)))?;
        let one = self.body_size(&again, Kept::none());
        let len = len_together(more, one, self.body_size(body, kept));
        self.may_add(len)?;
        Ok(len)
    }

    // Writes it.
    pub(crate) fn write_record(&mut self, body: &Body, kept: Kept) -> Result<(), NoMemory>
        requires numbers { BodyAgrees (current_tracks self.old.history.history) body.now }
        requires kept { BodyKeeps kept (current_tracks self.old.history.history) body.now }
        ensures same { core_of self.new ≡ core_of self.old }
        ensures body { OnOk result (self.new.body.items ≡ body_bytes (core_of self.old) body.now) }
        ensures row { self.new.row ≡ self.old.row }
        ensures history { self.new.history ≡ self.old.history }
        ensures ledger { self.new.tally ≡ self.old.tally }
    {
        if self.version == WHOLE_VERSION {
            return write_body(body, &mut self.body);
        }
        write_delta_body(body, current_of(&self.history), kept, &mut self.body)
    }

    // Writes records that come together into the row of the journal, this many before the last, with room for a byte
    // more.
    pub(crate) fn write_records(
        &mut self,
        body: &Body,
        more: u64,
        kept: Kept,
    ) -> Result<(), NoMemory>
        requires numbers { BodyAgrees (current_tracks self.old.history.history) body.now }
        requires kept { BodyKeeps kept (current_tracks self.old.history.history) body.now }
        requires again { AgreeById (current_tracks self.old.history.history) (current_tracks self.old.history.history) }
        requires short { all_len (core_of self.old) (writing more body.now) ≤ LONGEST_BODY }
        ensures same { core_of self.new ≡ core_of self.old }
        ensures rows { OnOk result (AreWaiting self.new.row.items
            (all_bytes (core_of self.old) (writing more body.now))) }
        ensures room { OnOk result (1 + length self.new.row.items ≤ vec_capacity self.new.row) }
        ensures history { self.new.history ≡ self.old.history }
        ensures ledger { self.new.tally ≡ self.old.tally }
    {
        self.write_again(body, more)?;
        self.write_record(body, kept)?;
        add_record(&mut self.row, &self.body)?;
        self.row.reserve(1)?;
        Ok(())
    }

    // Writes the records that say the current point into the row, this many.
    fn write_again(&mut self, body: &Body, more: u64) -> Result<(), NoMemory>
        requires again { AgreeById (current_tracks self.old.history.history) (current_tracks self.old.history.history) }
        requires short { 0 < more → length (body_bytes (core_of self.old)
            (with_point (current_tracks self.old.history.history) body.now)) < 2 ^ 32 }
        ensures same { core_of self.new ≡ core_of self.old }
        ensures rows { OnOk result (AreWaiting self.new.row.items (replicate more (body_bytes (core_of self.old)
            (with_point (current_tracks self.old.history.history) body.now)))) }
        ensures history { self.new.history ≡ self.old.history }
        ensures ledger { self.new.tally ≡ self.old.tally }
    {
        self.row.clear();
        if more == 0 {
            return Ok(());
        }
        let again = self.again(body)?;
        self.write_record(&again, Kept::none())?;
        add_times(&mut self.row, &self.body, more)
    }
}

// How many bytes records have that come together, this many of one length before the last. The gate of the first and
// the length of its body are not counted.
fn len_together(more: u64, one: usize, last: usize) -> u64
    requires few { more < 64 }
    requires one { one ≤ 2 ^ 45 }
    requires last { last ≤ 2 ^ 45 }
    ensures value { result ≡ more * (one + 5) + last }
    ensures small { result ≤ 2 ^ 53 }
{
    more * (one as u64 + 5) + last as u64
}

// Puts the record of this body after those that wait, this many times.
fn add_times(rows: &mut Vec<u8>, body: &[u8], count: u64) -> Result<(), NoMemory>
    requires { length body.now < 2 ^ 32 }
    ensures { OnOk result ((bodies : List (List ℕ)) → AreWaiting rows.old.items bodies
        → AreWaiting rows.new.items (bodies ++ replicate count body.now)) }
{
    'rows: for i in 0..count {
        let _i = i;
        add_record(rows, body)?;
    }
    Ok(())
}
