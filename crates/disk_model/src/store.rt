// Numbered files, as the layers above see them.
ghost use Rattle.std.specs.Prelude.{◌≡◌, ◌⊎◌, ◌+◌, ◌-◌, ◌^◌, ◌≤◌, ◌↔◌, ℕ, Bool, true, IsTrue, Option, None, Some, IsSome};
ghost use Rattle.std.specs.Prelude.{◌++◌, length, take, drop, min, IfOk, OnOk, OnErr, IfSome, Contains};
ghost use Rattle.std.specs.List.Sorted.{IsStrictlyIncreasing};
ghost use Rattle.std.specs.Option.{option_map};
ghost use Rattle.pcm_base.specs.declared.limits.TheConstants.{COUNTER_LIMIT};
ghost use Rattle.pcm_base.specs.Causes.{HasCause};
ghost use Rattle.disk_model.specs.Moment.{Moment, IsUpTo};
ghost use Rattle.disk_model.specs.Disk.{Files, bytes_of, written, TornFile, SameElsewhere, WriteStep, RemoveStep};
ghost use Rattle.disk_model.specs.Disk.{StaysStep, Follows};
ghost use Rattle.disk_model.specs.Faults.{HasListCause};
ghost use Rattle.disk_model.specs.Parts.{AllThere, AreParts, filled};
ghost use Rattle.disk_model.specs.Room.{Room, raised, met, IsSpent, StaysRoom};

use super::parts::Part;
use pcm_base::Failed;

/// What can go wrong where the files are listed.
#[derive(Clone, Copy, Debug, PartialEq, Eq)]
pub enum ListFault {
    /// The disk failed. It has counted that.
    Failed,
    /// There is no memory for the list.
    NoMemory,
}

/// Files of bytes on a disk, named by numbers, and what a stop of the machine at any moment may leave of them.
///
/// A call answers `Failed` only where the count of its kind of faults rose in it. A call that failed may have done its
/// work, a part of it or none, and what it wrote is pending like any other write.
pub trait Store {
    // Whether it tells its bytes. A store over real files does not, and no clause on content is said of it.
    ghost tells: { Self → Bool };

    // The bytes of each file as it reads.
    ghost reads: { Self → Files };

    // Whether the disk below keeps to the model.
    ghost keeps_model: { Self → Bool };

    // The moment. It never falls.
    ghost clock: { Self → Moment };

    // What a stop may leave that comes at that moment or later, up to now: the images of the disk since then.
    ghost may_leave: { Self → Moment → Files → Type 0 };

    // How many calls of `size`, `read_at`, `read_parts` and `files` failed, up to the greatest u64.
    ghost read_fault_count: { Self → ℕ };

    // How many calls of `write_at`, `sync` and `remove` failed, up to the greatest u64.
    ghost change_fault_count: { Self → ℕ };

    // How many calls of `write_at`, `sync` and `remove` there were, whatever they answered, up to the greatest u64.
    ghost change_calls: { Self → ℕ };

    // How many bytes `write_at` was asked to write, whatever it answered, up to the greatest u64.
    ghost asked_bytes: { Self → ℕ };

    // How many calls of `write_at` met an absent file, whatever they answered, up to the greatest u64.
    ghost absent_writes: { Self → ℕ };

    // How much may be asked of it in all, by these three counts, before it may count a fault. None where it may at any
    // call.
    ghost room: { Self → Option Room };

    /// The sum of both counts of faults, or the greatest u64 where it is greater. It never fails.
    fn faults(&self) -> u64
        ensures { result ≡ min (read_fault_count self.now + change_fault_count self.now) (2 ^ 64 - 1) };

    /// The count of the faults of changing calls. It never fails.
    fn change_faults(&self) -> u64
        ensures { result ≡ change_fault_count self.now };

    /// How many bytes the file has, at most 2^62, and None where it is absent.
    fn size(&mut self, file: u64) -> Result<Option<u64>, Failed>
        ensures size { IsTrue (tells self.old) → IfOk result (λ n. n ≡ option_map length (reads self.old file)) }
        ensures bound { IfOk result (λ n. IfSome n (λ n. n ≤ COUNTER_LIMIT)) }
        ensures tells { tells self.new ≡ tells self.old }
        ensures reads { reads self.new ≡ reads self.old }
        ensures model { keeps_model self.new ≡ keeps_model self.old }
        ensures calls { change_calls self.new ≡ change_calls self.old }
        ensures bytes { asked_bytes self.new ≡ asked_bytes self.old }
        ensures absent { absent_writes self.new ≡ absent_writes self.old }
        ensures room { room self.new ≡ room self.old }
        ensures unfailing { IsSome (room self.old) → read_fault_count self.new ≡ read_fault_count self.old }
        ensures clock { clock self.new ≡ clock self.old }
        ensures images { Follows StaysStep (clock self.old) (clock self.new) (may_leave self.old) (may_leave self.new) }
        ensures faults { HasCause (read_fault_count self.old) (read_fault_count self.new) result }
        ensures changes { change_fault_count self.new ≡ change_fault_count self.old };

    /// Reads the file's bytes from the offset `at` on into the front of `buf`, and answers how many: less than fit only
    /// at the file's end. An absent file reads as an empty one.
    fn read_at(&mut self, file: u64, at: u64, buf: &mut [u8]) -> Result<usize, Failed>
        requires { at + length buf.old ≤ COUNTER_LIMIT }
        ensures read { IsTrue (tells self.old)
            → IfOk result (λ n. buf.new ≡ take n (drop at (bytes_of (reads self.old file))) ++ drop n buf.old) }
        ensures count { IsTrue (tells self.old)
            → IfOk result (λ n. n ≡ min (length buf.old) (length (bytes_of (reads self.old file)) - at)) }
        ensures within { IfOk result (λ n. n ≤ length buf.old) }
        ensures tells { tells self.new ≡ tells self.old }
        ensures reads { reads self.new ≡ reads self.old }
        ensures model { keeps_model self.new ≡ keeps_model self.old }
        ensures calls { change_calls self.new ≡ change_calls self.old }
        ensures bytes { asked_bytes self.new ≡ asked_bytes self.old }
        ensures absent { absent_writes self.new ≡ absent_writes self.old }
        ensures room { room self.new ≡ room self.old }
        ensures unfailing { IsSome (room self.old) → read_fault_count self.new ≡ read_fault_count self.old }
        ensures clock { clock self.new ≡ clock self.old }
        ensures images { Follows StaysStep (clock self.old) (clock self.new) (may_leave self.old) (may_leave self.new) }
        ensures faults { HasCause (read_fault_count self.old) (read_fault_count self.new) result }
        ensures changes { change_fault_count self.new ≡ change_fault_count self.old };

    /// Reads parts of files into `out`, each at its place, in any order or at the same time. It answers whether each file
    /// has all of its parts. Where one has not, and after an error, `out` may have been written in part.
    fn read_parts(&mut self, parts: &[Part], out: &mut [i16]) -> Result<bool, Failed>
        requires { AreParts 0 (length out.old) parts.now }
        ensures there { IsTrue (tells self.old)
            → IfOk result (λ all. (all ≡ true) ↔ AllThere (reads self.old) parts.now) }
        ensures read { IsTrue (tells self.old)
            → IfOk result (λ all. all ≡ true → out.new ≡ filled (reads self.old) parts.now out.old) }
        ensures tells { tells self.new ≡ tells self.old }
        ensures reads { reads self.new ≡ reads self.old }
        ensures model { keeps_model self.new ≡ keeps_model self.old }
        ensures calls { change_calls self.new ≡ change_calls self.old }
        ensures bytes { asked_bytes self.new ≡ asked_bytes self.old }
        ensures absent { absent_writes self.new ≡ absent_writes self.old }
        ensures room { room self.new ≡ room self.old }
        ensures unfailing { IsSome (room self.old) → read_fault_count self.new ≡ read_fault_count self.old }
        ensures clock { clock self.new ≡ clock self.old }
        ensures images { Follows StaysStep (clock self.old) (clock self.new) (may_leave self.old) (may_leave self.new) }
        ensures faults { HasCause (read_fault_count self.old) (read_fault_count self.new) result }
        ensures changes { change_fault_count self.new ≡ change_fault_count self.old };

    /// Writes the bytes at the offset `at`, over what is there and past the end. It makes an absent file, and fills
    /// what lies between the old end and the offset with 0. Until a sync of the file what it wrote is pending.
    fn write_at(&mut self, file: u64, at: u64, bytes: &[u8]) -> Result<(), Failed>
        requires { at + length bytes.now ≤ COUNTER_LIMIT }
        ensures written { IsTrue (tells self.old)
            → OnOk result (reads self.new file ≡ Some (written (bytes_of (reads self.old file)) at bytes.now)) }
        ensures torn { IsTrue (tells self.old)
            → OnErr result (TornFile at (length bytes.now) (reads self.old file) (reads self.new file)) }
        ensures others { IsTrue (tells self.old) → SameElsewhere file (reads self.old) (reads self.new) }
        ensures tells { tells self.new ≡ tells self.old }
        ensures model { keeps_model self.new ≡ keeps_model self.old }
        ensures calls { change_calls self.new ≡ raised (change_calls self.old) 1 }
        ensures bytes { asked_bytes self.new ≡ raised (asked_bytes self.old) (length bytes.now) }
        ensures absent { IsTrue (tells self.old)
            → absent_writes self.new ≡ met (reads self.old file) (absent_writes self.old) }
        ensures absent_later { absent_writes self.old ≤ absent_writes self.new }
        ensures room { StaysRoom (room self.old) (room self.new) }
        ensures spent { (change_fault_count self.new ≡ change_fault_count self.old) ⊎ IsSpent (room self.old)
            (record { files = absent_writes self.new; bytes = asked_bytes self.new; calls = change_calls self.new }) }
        ensures images { Follows (WriteStep file at (length bytes.now)) (clock self.old) (clock self.new)
            (may_leave self.old) (may_leave self.new) }
        ensures faults { HasCause (change_fault_count self.old) (change_fault_count self.new) result }
        ensures read_faults { read_fault_count self.new ≡ read_fault_count self.old };

    /// Waits until the file is on the disk: after Ok a stop leaves it as it reads. It may be absent.
    fn sync(&mut self, file: u64) -> Result<(), Failed>
        ensures durable { OnOk result
            ((c : Files) → may_leave self.new (clock self.new) c → c file ≡ reads self.old file) }
        ensures tells { tells self.new ≡ tells self.old }
        ensures reads { reads self.new ≡ reads self.old }
        ensures model { keeps_model self.new ≡ keeps_model self.old }
        ensures calls { change_calls self.new ≡ raised (change_calls self.old) 1 }
        ensures bytes { asked_bytes self.new ≡ asked_bytes self.old }
        ensures absent { absent_writes self.new ≡ absent_writes self.old }
        ensures room { StaysRoom (room self.old) (room self.new) }
        ensures spent { (change_fault_count self.new ≡ change_fault_count self.old) ⊎ IsSpent (room self.old)
            (record { files = absent_writes self.new; bytes = asked_bytes self.new; calls = change_calls self.new }) }
        ensures images { Follows StaysStep (clock self.old) (clock self.new) (may_leave self.old) (may_leave self.new) }
        ensures faults { HasCause (change_fault_count self.old) (change_fault_count self.new) result }
        ensures read_faults { read_fault_count self.new ≡ read_fault_count self.old };

    /// Removes the file, which may be absent. Until a sync of it a stop may leave it there.
    fn remove(&mut self, file: u64) -> Result<(), Failed>
        ensures removed { IsTrue (tells self.old) → OnOk result (reads self.new file ≡ None) }
        ensures part { IsTrue (tells self.old) → RemoveStep file (reads self.old) (reads self.new) }
        ensures tells { tells self.new ≡ tells self.old }
        ensures model { keeps_model self.new ≡ keeps_model self.old }
        ensures calls { change_calls self.new ≡ raised (change_calls self.old) 1 }
        ensures bytes { asked_bytes self.new ≡ asked_bytes self.old }
        ensures absent { absent_writes self.new ≡ absent_writes self.old }
        ensures room { StaysRoom (room self.old) (room self.new) }
        ensures spent { (change_fault_count self.new ≡ change_fault_count self.old) ⊎ IsSpent (room self.old)
            (record { files = absent_writes self.new; bytes = asked_bytes self.new; calls = change_calls self.new }) }
        ensures images { Follows (RemoveStep file) (clock self.old) (clock self.new) (may_leave self.old)
            (may_leave self.new) }
        ensures faults { HasCause (change_fault_count self.old) (change_fault_count self.new) result }
        ensures read_faults { read_fault_count self.new ≡ read_fault_count self.old };

    /// Puts the numbers of the files that are there into `out`, rising, in place of what it has.
    fn files(&mut self, out: &mut Vec<u64>) -> Result<(), ListFault>
        ensures listed { IsTrue (tells self.old)
            → OnOk result ((n : ℕ) → Contains out.new.items n ↔ IsSome (reads self.old n)) }
        ensures rising { OnOk result (IsStrictlyIncreasing out.new.items) }
        ensures tells { tells self.new ≡ tells self.old }
        ensures reads { reads self.new ≡ reads self.old }
        ensures model { keeps_model self.new ≡ keeps_model self.old }
        ensures calls { change_calls self.new ≡ change_calls self.old }
        ensures bytes { asked_bytes self.new ≡ asked_bytes self.old }
        ensures absent { absent_writes self.new ≡ absent_writes self.old }
        ensures room { room self.new ≡ room self.old }
        ensures unfailing { IsSome (room self.old) → read_fault_count self.new ≡ read_fault_count self.old }
        ensures clock { clock self.new ≡ clock self.old }
        ensures images { Follows StaysStep (clock self.old) (clock self.new) (may_leave self.old) (may_leave self.new) }
        ensures faults { HasListCause (read_fault_count self.old) (read_fault_count self.new) result }
        ensures changes { change_fault_count self.new ≡ change_fault_count self.old };

    // A disk that keeps to the model tells its bytes, and may be left as it reads.
    ghost may_stay: { (store : Self) → IsTrue (keeps_model store)
        → IsTrue (tells store) × may_leave store (clock store) (reads store) };

    // A later start has fewer moments, so a caller may say of no call at all what it says of a call.
    ghost may_fewer: { (store : Self) (t u : Moment) (c : Files) → IsUpTo t u → IsUpTo u (clock store)
        → may_leave store u c → may_leave store t c };
}
