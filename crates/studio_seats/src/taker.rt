// A seat that takes the pieces of a recording.
ghost use Rattle.std.specs.Prelude.{◌≡◌, ◌<◌, ◌≤◌, true, None, Ok, Err, MatchResult};
ghost use Rattle.pin_turn.specs.Calls.{known};
ghost use Rattle.studio_seats.specs.Deeds.{number_after};
ghost use Rattle.studio_seats.specs.Desks.{IsAt, start_at};
ghost use Rattle.studio_seats.specs.Recording.{FreesTo};

use super::batch::{join_chunks, pieces_in};
use super::desk::{Desk, NextSamples};
use super::first::first_of;
use super::freeing::{PIECES, count_pieces, free};
use super::held::DeskSeat;
use disk_model::Store;
use edit_ports::{PieceTaker, Taken, Vault};
use pcm_base::{BATCH_SAMPLES, Chunk, Refusal, Said};
use std::alloc::Global;
use std::sync::Wait;

/// The pieces of chunks that come together are one turn of the seat, at the end of a track, with the number of the
/// recording as their tag. After 64 pieces, and at its end, it removes the files of blocks that nothing names, in a
/// turn of its own. It takes no chunks past those 64 at once.
#[derive(Drop)]
pub struct DeskTaker<'a, S: Store, V: Vault> {
    desk: &'a Desk<S, V>,
    seat: DeskSeat<S, V>,
    track: u64,
    tag: u64,
    refused: Option<Refusal>,
    since: u64,
    ghost at: { IsAt desk.now seat },
    ghost tagged: { (1 ≤ tag) × (tag ≤ number_after (start_at desk.now).commit_number (known seat).seen) },
    ghost few: { since < 64 },
}

impl<'a, S: Store, V: Vault> PieceTaker for DeskTaker<'a, S, V> {
    ghost use Rattle.std.specs.Prelude.{false};
    ghost use Rattle.studio_seats.specs.Pieces.{pieces_by};
    ghost use Rattle.studio_seats.specs.Recording.{RecordsOn, recorder};

    ghost pieces = { λ s. pieces_by s.track s.tag (known s.seat).number (start_at s.desk.now).commit_number
        (known s.seat).seen };

    ghost refused = { λ s. s.refused };

    // It is of the same desk, and its seat went on by turns of its own: pieces of this recording, none of them after
    // one that was refused, and reclaims, each after 64 pieces.
    ghost follows = { λ first failed s. (s.desk.now ≡ first.desk.now) × (s.track ≡ first.track) × (s.tag ≡ first.tag)
        × RecordsOn first.track first.tag false failed (recorder (known first.seat) first.refused first.since)
        (recorder (known s.seat) s.refused s.since) };

    fn take_pieces<R: Wait>(&mut self, rt: &R, alloc: Global, chunks: &[Chunk]) -> Said<Taken> {
        let mut batch = [0i16; BATCH_SAMPLES];
        let joined = join_chunks(chunks, (PIECES - self.since) as usize, &mut batch);
        let next = NextSamples {
            track: self.track,
            tag: self.tag,
            samples: &batch[..joined],
        };
        let tried = self.desk.pieces(rt, alloc, &mut self.seat, next);
        let pieces = pieces_in(tried.count);
        self.refused = first_of(self.refused, &tried.said.what);
        self.since = count_pieces(rt, self.desk, &mut self.seat, self.since, pieces as u64);
        let what = taken_of(tried.said.what, pieces);
        Said {
            at: tried.said.at,
            what,
        }
    }
}

// What was answered, with how many pieces it was about.
fn taken_of(what: Result<u64, Refusal>, count: usize) -> Result<Taken, Refusal>
    ensures { MatchResult what (λ last. result ≡ Ok (record { count = count; last = last }))
        (λ why. result ≡ Err why) }
{
    match what {
        Ok(last) => Ok(Taken { count, last }),
        Err(reason) => Err(reason),
    }
}

impl<'a, S: Store, V: Vault> DeskTaker<'a, S, V> {
    /// A taker by this seat. The tag is the recording's number: a commit number of which the seat knows.
    pub fn new(
        desk: &'a Desk<S, V>,
        seat: DeskSeat<S, V>,
        track: u64,
        tag: u64,
    ) -> DeskTaker<'a, S, V>
        requires at { IsAt desk.now seat }
        requires tag { (1 ≤ tag) × (tag ≤ number_after (start_at desk.now).commit_number (known seat).seen) }
        ensures seat { known result.seat ≡ known seat }
        ensures of { (result.desk.now ≡ desk.now) × (result.track ≡ track) × (result.tag ≡ tag) }
        ensures unrefused { result.refused ≡ None }
        ensures fresh { result.since ≡ 0 }
    {
        DeskTaker {
            desk,
            seat,
            track,
            tag,
            refused: None,
            since: 0,
        }
    }

    /// The seat, which is at the desk as before. If it asked for a piece since its last reclaim it first makes one.
    pub fn finish<R: Wait>(self, rt: &R) -> DeskSeat<S, V>
        ensures at { IsAt self.entry.desk.now result }
        ensures frees { FreesTo true self.entry.since (known self.entry.seat) 0 (known result) }
    {
        let DeskTaker {
            desk,
            mut seat,
            since,
            ..
        } = self;
        if since > 0 {
            free(rt, desk, &mut seat);
        }
        seat
    }
}
