// What a call leaves.
ghost use Rattle.std.specs.Prelude.{◌≡◌, [], true, None};
ghost use Rattle.session_run.specs.Refused.{IsDone};

use pcm_base::Numbers;
use std::alloc::Global;

/// What a call of the program leaves.
#[derive(Drop)]
pub struct Ending<S, M, P> {
    /// The exit status: 4 where a device failed, else 5 where there was no memory to begin, 6 where the script had no
    /// end, 2 where the words are no command, 3 where the project is not as the word needs it, 1 where something was
    /// refused, and 0.
    pub status: u8,
    /// Whether a project was opened and no line `refused ..` was due.
    pub opened: bool,
    /// Store, microphone and speaker, as they are after the call.
    pub store: S,
    pub mic: M,
    pub speaker: P,
    /// The commit number with which a script began, and the one with which it ended; both 0 where nothing was opened.
    pub first_commit: u64,
    pub last_commit: u64,
    /// The number of the recording's track, where there was a recording.
    pub record_commit: Option<u64>,
    /// The numbers of the commits of the script, rising.
    pub script_commits: Numbers,
    /// Those of the pieces that were recorded.
    pub piece_commits: Numbers,
}

/// What a word leaves of the store, before the faults of all devices are counted.
#[derive(Drop)]
pub struct Done<S> {
    /// The status where no count of faults rose.
    pub status: u8,
    pub opened: bool,
    pub store: S,
    pub first_commit: u64,
    pub last_commit: u64,
    pub record_commit: Option<u64>,
    /// The numbers of the commits of the script, rising.
    pub commits: Numbers,
    /// Those of the pieces that were recorded.
    pub pieces: Numbers,
}

impl<S> Done<S> {
    /// What a word leaves that opened no project, or does not say so.
    pub(crate) fn without_script(alloc: Global, status: u8, store: S) -> Done<S>
        ensures done { IsDone status result }
        ensures store { result.store ≡ store }
    {
        Done {
            status,
            opened: false,
            store,
            first_commit: 0,
            last_commit: 0,
            record_commit: None,
            commits: Numbers::new(Vec::new(alloc)),
            pieces: Numbers::new(Vec::new(alloc)),
        }
    }

    /// What a word leaves that opened a project, and made no commit.
    pub(crate) fn without_commits(alloc: Global, commit: u64, store: S) -> Done<S>
        ensures status { (result.status ≡ 0) × (result.opened ≡ true) }
        ensures commits { (result.first_commit ≡ commit) × (result.last_commit ≡ commit) × (result.record_commit ≡ None)
            × (result.commits ≡ []) × (result.pieces ≡ []) }
        ensures store { result.store ≡ store }
    {
        Done {
            status: 0,
            opened: true,
            store,
            first_commit: commit,
            last_commit: commit,
            record_commit: None,
            commits: Numbers::new(Vec::new(alloc)),
            pieces: Numbers::new(Vec::new(alloc)),
        }
    }
}
