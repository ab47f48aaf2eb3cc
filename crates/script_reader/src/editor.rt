// What carries out the commands.
ghost use Rattle.std.specs.Prelude.{◌≡◌, Ok, MatchResult};
ghost use Rattle.std.specs.Thread.{IsSync};
ghost use Rattle.pcm_base.specs.Form.{IsInForm};
ghost use Rattle.pcm_base.specs.declared.answer.Reply.TheVariants as reply;
ghost use Rattle.script_reader.specs.Place.{Place};
ghost use Rattle.script_reader.specs.Answering.{Turn};

use pcm_base::{Command, Refusal, Reply};
use std::alloc::Global;
use std::sync::Wait;
use std::thread::Threads;

/// An editor, which others may use between two commands: a list of entries grows, of which some are its own.
pub trait Editor {
    // Where the script stands.
    ghost place: { Self → Place };

    // What is left of one after some calls, as the editor tells it.
    ghost follows: { Self → Self → Type 0 };

    /// Carries a command out and answers its reply, or the reason that refuses it.
    fn apply<R: Threads + Wait + Sync>(
        &mut self,
        rt: &R,
        alloc: Global,
        command: &Command,
    ) -> Result<Reply, Refusal>
        requires in_form { IsInForm command.now }
        requires sync { IsSync R.row }
        ensures turn { MatchResult result
            (λ r. Turn (place self.old) (Ok command.now) r (place self.new))
            (λ reason. Turn (place self.old) (Ok command.now) (reply.Refused reason) (place self.new)) }
        ensures goes { (first : Self) → follows first self.old → follows first self.new };

    /// The commit number that it told last, or that with which it began.
    fn commit_number(&self) -> u64
        ensures { result ≡ (place self.now).last };
}
