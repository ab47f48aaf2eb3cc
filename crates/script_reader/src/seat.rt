// A seat at a desk as an editor.
ghost use Rattle.std.specs.Prelude.{◌≡◌, ◌≤◌, ◌<◌, [], vec_len, vec_capacity, MatchResult};
ghost use Rattle.pcm_base.specs.declared.answer.Reply.TheVariants as reply;
ghost use Rattle.pin_turn.specs.Calls.{known};
ghost use Rattle.studio_seats.specs.Deeds.{number_after};
ghost use Rattle.studio_seats.specs.Desks.{IsAt, start_at};
ghost use Rattle.editor_state.specs.Took.{as_reply};
ghost use Rattle.studio_seats.specs.Onward.{Onward};
ghost use Rattle.script_reader.specs.Calls.{IsOfScript};
ghost use Rattle.script_reader.specs.Place.{Bounces, place_of, with_number};

use super::editor::Editor;
use disk_model::Store;
use edit_ports::Vault;
use pcm_base::{Answer, Command, MAX_LOADED, Numbers, Refusal, Reply, Said};
use sound_bounce::{Task, bounce};
use std::alloc::Global;
use std::sync::Wait;
use std::thread::Threads;
use studio_seats::{Desk, DeskSeat};

/// Each command is one turn of the seat, and a bounce takes several. They name sounds of a vault that was lent.
#[derive(Drop)]
pub struct DeskEditor<'a, 'b, S: Store, V: Vault> {
    desk: &'a Desk<S, V>,
    seat: DeskSeat<S, V>,
    vault: &'b mut V,
    // The commit number that was told last.
    last: u64,
    // The numbers of its commits.
    commits: Vec<u64>,
    ghost at: { IsAt desk.now seat },
    ghost low: { last ≤ number_after (start_at desk.now).commit_number (known seat).seen },
}

// Lists the number of a commit.
fn note(numbers: &mut Vec<u64>, commit: bool, at: u64)
    requires { vec_len numbers.old < vec_capacity numbers.old }
    ensures { numbers.new.items ≡ with_number commit numbers.old.items at }
{
    if commit {
        numbers.push_reserved(at);
    }
}

impl<'a, 'b, S: Store, V: Vault> Editor for DeskEditor<'a, 'b, S, V> {
    ghost place = { λ s. place_of (start_at s.desk.now) (known s.seat) s.last s.commits.items (V.tells s.vault.now)
        (V.holds s.vault.now) (V.fault_count s.vault.now) };

    // It is of the same desk and the same vault, and its seat went on by turns of its own, each a line or one of a
    // bounce.
    ghost follows = { λ first s. (s.desk.now ≡ first.desk.now) × (s.vault.ghost_name ≡ first.vault.ghost_name)
        × Onward IsOfScript (known first.seat) (known s.seat) };

    fn apply<R: Threads + Wait + Sync>(
        &mut self,
        rt: &R,
        alloc: Global,
        command: &Command,
    ) -> Result<Reply, Refusal> {
        if let Command::Bounce { name } = command {
            return self.carry_bounce(rt, alloc, name.as_str());
        }
        if self.commits.reserve(1).is_err() {
            return Err(Refusal::NoMemory);
        }
        let mut answer = Answer {
            commit: 0,
            reply: Reply::Done,
        };
        let Said { at, what } = self.desk.apply(
            rt,
            alloc,
            &mut self.seat,
            self.vault,
            command,
            &mut answer,
        );
        self.last = self.last.max(at);
        match what {
            Ok(()) => {
                note(&mut self.commits, command.is_commit(), at);
                Ok(answer.reply)
            }
            Err(reason) => Err(reason),
        }
    }

    fn commit_number(&self) -> u64 {
        self.last
    }
}

// The reply to a bounce.
fn wrote(what: Result<u64, Refusal>) -> Result<Reply, Refusal>
    ensures { result ≡ as_reply reply.Wrote what }
{
    match what {
        Ok(bytes) => Ok(Reply::Wrote { bytes }),
        Err(reason) => Err(reason),
    }
}

impl<'a, 'b, S: Store, V: Vault> DeskEditor<'a, 'b, S, V> {
    // Carries a bounce out, which takes several turns.
    fn carry_bounce<R: Threads + Wait + Sync>(
        &mut self,
        rt: &R,
        alloc: Global,
        name: &str,
    ) -> Result<Reply, Refusal>
        ensures turn { MatchResult result
            (λ r. Bounces (place_of (start_at self.old.desk.now) (known self.old.seat) self.old.last
            self.old.commits.items (V.tells self.old.vault.now) (V.holds self.old.vault.now)
            (V.fault_count self.old.vault.now)) name.now r
            (place_of (start_at self.new.desk.now) (known self.new.seat) self.new.last self.new.commits.items
            (V.tells self.new.vault.now) (V.holds self.new.vault.now) (V.fault_count self.new.vault.now)))
            (λ reason. Bounces (place_of (start_at self.old.desk.now) (known self.old.seat) self.old.last
            self.old.commits.items (V.tells self.old.vault.now) (V.holds self.old.vault.now)
            (V.fault_count self.old.vault.now)) name.now (reply.Refused reason)
            (place_of (start_at self.new.desk.now) (known self.new.seat) self.new.last self.new.commits.items
            (V.tells self.new.vault.now) (V.holds self.new.vault.now) (V.fault_count self.new.vault.now))) }
        ensures of { (self.new.desk.now ≡ self.old.desk.now)
            × (self.new.vault.ghost_name ≡ self.old.vault.ghost_name) }
        ensures goes { Onward IsOfScript (known self.old.seat) (known self.new.seat) }
    {
        let task = Task {
            rt,
            alloc,
            desk: self.desk,
            name,
            batch: MAX_LOADED,
        };
        let Said { at, what } = bounce(&task, &mut self.seat, self.vault);
        self.last = self.last.max(at);
        wrote(what)
    }

    /// An editor by this seat, at which this commit number was told last.
    pub fn new(
        alloc: Global,
        desk: &'a Desk<S, V>,
        seat: DeskSeat<S, V>,
        vault: &'b mut V,
        last: u64,
    ) -> DeskEditor<'a, 'b, S, V>
        requires at { IsAt desk.now seat }
        requires last { last ≡ number_after (start_at desk.now).commit_number (known seat).seen }
        ensures seat { known result.seat ≡ known seat }
        ensures of { (result.desk.now ≡ desk.now) × (result.vault.ghost_name ≡ vault.entry.ghost_name)
            × (result.vault.now ≡ vault.old) }
        ensures fresh { (result.last ≡ last) × (result.commits.items ≡ []) }
    {
        DeskEditor {
            desk,
            seat,
            vault,
            last,
            commits: Vec::new(alloc),
        }
    }

    /// The seat, which is at the desk as before, the numbers of its commits, and the vault that was lent.
    pub fn into_parts(self) -> (DeskSeat<S, V>, Numbers, &'b mut V)
        ensures at { IsAt self.entry.desk.now result.0 }
        ensures seat { known result.0 ≡ known self.entry.seat }
        ensures numbers { result.1 ≡ self.entry.commits.items }
        ensures vault { (result.2.ghost_name ≡ self.entry.vault.ghost_name) × (result.2.now ≡ self.entry.vault.now) }
    {
        let DeskEditor {
            seat,
            commits,
            vault,
            ..
        } = self;
        (seat, Numbers::new(commits), vault)
    }
}
