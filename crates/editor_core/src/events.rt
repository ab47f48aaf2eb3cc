// A list of events, carried out one after another.
ghost use Rattle.std.specs.Prelude.{◌≡◌, ◌+◌, ◌-◌, ◌*◌, ◌^◌, ◌<◌, ◌≤◌, ◌++◌, min, length, take, drop, OnErr, OnOk};
ghost use Rattle.std.specs.Prelude.{IfOk};
ghost use Rattle.std.specs.Prelude.{List, Result, Some, slice_get};
ghost use Rattle.pcm_base.specs.declared.limits.TheConstants.{MAX_LOADED};
ghost use Rattle.mixdown.specs.Loads.{IsLoaded, cut_in, tracks_in};
ghost use Rattle.pcm_base.specs.declared.answer.Answer.{Answer};
ghost use Rattle.pcm_base.specs.declared.answer.Reply.{Reply};
ghost use Rattle.pcm_base.specs.declared.answer.Reply.TheVariants as reply;
ghost use Rattle.pcm_base.specs.declared.command.Call.TheVariants as call;
ghost use Rattle.pcm_base.specs.declared.refusal.Refusal.{Refusal};
ghost use Rattle.pcm_base.specs.Form.{IsCallInForm};
ghost use Rattle.editor_state.specs.Applied.{TookOver, reply_of as told_reply};
ghost use Rattle.editor_core.specs.Core.{core_of};
ghost use Rattle.editor_state.specs.Events.{AreInForm, IsOther, RanOver};
ghost use Rattle.editor_state.specs.Studios.{IsStudio};
ghost use Rattle.editor_state.specs.Took.{Took, quietly, as_reply};

use super::apply::done;
use super::studio::Studio;
use disk_model::Store;
use edit_ports::Vault;
use mixdown::Loaded;
use pcm_base::{
    Answer, Call, Event, Frame, Frames, LoadedTrack, LoadedTracks, NoMemory, Refusal, Reply,
    Samples, Side,
};
use std::alloc::Global;

// A reason as a reply.
fn reply_of(told: Result<Reply, Refusal>) -> Reply
    ensures { result ≡ told_reply told }
{
    match told {
        Ok(reply) => reply,
        Err(reason) => Reply::Refused { reason },
    }
}

// The reply to a call that keeps the current project.
fn pinned(answer: Result<u64, Refusal>) -> Result<Reply, Refusal>
    ensures { result ≡ as_reply reply.Pinned answer }
{
    match answer {
        Ok(pin) => Ok(Reply::Pinned { pin }),
        Err(reason) => Err(reason),
    }
}

// The reply to a call that lets a pin go.
fn let_go(answer: Result<(), Refusal>) -> Result<Reply, Refusal>
    ensures { result ≡ as_reply (λ _. reply.Done) answer }
{
    match answer {
        Ok(()) => Ok(Reply::Done),
        Err(reason) => Err(reason),
    }
}

// The reply to a call that asks how long a pin's mix is.
fn length(answer: Result<u64, Refusal>) -> Result<Reply, Refusal>
    ensures { result ≡ as_reply reply.Length answer }
{
    match answer {
        Ok(frames) => Ok(Reply::Length { frames }),
        Err(reason) => Err(reason),
    }
}

// How many frames there are from a place on, up to a number.
fn frames_left(len: u64, from: u64, most: u64) -> usize
    ensures { result ≡ min most (len - from) }
{
    len.saturating_sub(from).min(most) as usize
}

// The gain at a place.
fn gain_at(gains: &[u32], i: usize) -> u32
    requires { i < length gains.now }
    ensures { slice_get gains.now i ≡ Some result }
{
    gains[i]
}

// The side at a place.
fn side_at(sides: &[Side], i: usize) -> Side
    requires { i < length sides.now }
    ensures { slice_get sides.now i ≡ Some result }
{
    sides[i]
}

// A copy of this many samples from a place on.
fn samples_from(
    alloc: Global,
    samples: &[i16],
    from: usize,
    len: usize,
) -> Result<Vec<i16>, NoMemory>
    requires { from + len ≤ length samples.now }
    ensures { IfOk result (λ v. v.items ≡ take len (drop from samples.now)) }
{
    let end = from + len;
    let copy = Vec::from_slice(alloc, &samples[from..end])?;
    Ok(copy)
}

// One of some tracks, whose stretches stand one after the other.
fn track_at(
    alloc: Global,
    len: usize,
    samples: &[i16],
    gains: &[u32],
    sides: &[Side],
    i: usize,
) -> Result<LoadedTrack, NoMemory>
    requires samples { length samples.now ≡ length gains.now * len }
    requires sides { length sides.now ≡ length gains.now }
    requires within { i < length gains.now }
    ensures { IfOk result (λ t. slice_get (cut_in len samples.now gains.now sides.now) i ≡ Some t) }
{
    let gain = gain_at(gains, i);
    let side = side_at(sides, i);
    let from = i * len;
    let part = samples_from(alloc, samples, from, len)?;
    Ok(LoadedTrack {
        gain,
        side,
        samples: Samples::new(part),
    })
}

// All of them.
fn list_tracks(
    alloc: Global,
    len: usize,
    samples: &[i16],
    gains: &[u32],
    sides: &[Side],
) -> Result<Vec<LoadedTrack>, NoMemory>
    requires samples { length samples.now ≡ length gains.now * len }
    requires sides { length sides.now ≡ length gains.now }
    ensures { IfOk result (λ v. v.items ≡ cut_in len samples.now gains.now sides.now) }
{
    let mut tracks = Vec::new(alloc);
    'rows: for i in 0..gains.len() {
        let track = track_at(alloc, len, samples, gains, sides, i)?;
        tracks.push(track)?;
    }
    Ok(tracks)
}

// The tracks that are loaded, as a list.
fn tracks_of(alloc: Global, loaded: &Loaded) -> Result<Vec<LoadedTrack>, NoMemory>
    requires { IsLoaded loaded.now }
    ensures { IfOk result (λ v. v.items ≡ tracks_in loaded.now) }
{
    let count = loaded.gains.len() * loaded.len;
    let samples = &loaded.samples.as_slice()[..count];
    list_tracks(
        alloc,
        loaded.len,
        samples,
        loaded.gains.as_slice(),
        loaded.sides.as_slice(),
    )
}

impl<S: Store> Studio<S> {
    /// Carries out a list of events of any actors, in order, and appends an answer to each to the answers: the commit
    /// number after it, and its reply. Whatever an event is answered, the next one follows.
    ///
    /// It takes the room for the answers first, and then what each event's own call takes. Where there is no room for
    /// the answers nothing is carried out, and the answers are as they were.
    ///
    /// # Errors
    ///
    /// There is no memory for the answers.
    pub fn run_events<V: Vault>(
        &mut self,
        alloc: Global,
        vault: &mut V,
        events: &[Event],
        answers: &mut Vec<Answer>,
    ) -> Result<(), NoMemory>
        requires studio { IsStudio S.Store (core_of self.old) }
        requires in_form { AreInForm self.old.commit_number events.now }
        ensures ran { OnOk result ((told : List Answer) × (answers.new.items ≡ answers.old.items ++ told)
            × RanOver S.Store (record {
              old = core_of self.old;
              new = core_of self.new;
              tells = V.tells vault.old;
              old_sounds = V.holds vault.old;
              new_sounds = V.holds vault.new;
            }) events.now told) }
        ensures err { OnErr result ((core_of self.new ≡ core_of self.old) × (vault.new ≡ vault.old)
            × (answers.new.items ≡ answers.old.items)) }
        ensures tells { V.tells vault.new ≡ V.tells vault.old }
    {
        answers.reserve(events.len())?;
        'events: for event in events {
            let reply = self.reply_to_call(alloc, vault, &event.call);
            answers.push(Answer {
                commit: self.commit_number,
                reply,
            })?;
        }
        Ok(())
    }

    // The reply to a call.
    fn reply_to_call<V: Vault>(&mut self, alloc: Global, vault: &mut V, call: &Call) -> Reply
        requires studio { IsStudio S.Store (core_of self.old) }
        requires in_form { IsCallInForm self.old.commit_number call.now }
        ensures took { (told : Result Reply Refusal) × (result ≡ told_reply told)
            × TookOver S.Store (record {
              old = core_of self.old;
              new = core_of self.new;
              tells = V.tells vault.old;
              old_sounds = V.holds vault.old;
              new_sounds = V.holds vault.new;
            }) call.now told }
        ensures tells { V.tells vault.new ≡ V.tells vault.old }
    {
        match call {
            Call::Line { command } => reply_of(self.reply_to(alloc, vault, command)),
            _ => reply_of(self.other_reply(alloc, call)),
        }
    }

    // The reply to a call that is no line, or what refuses it.
    fn other_reply(&mut self, alloc: Global, call: &Call) -> Result<Reply, Refusal>
        requires studio { IsStudio S.Store (core_of self.old) }
        requires in_form { IsCallInForm self.old.commit_number call.now }
        requires other { IsOther call.now }
        ensures took { Took S.Store (core_of self.old) (quietly call.now result) (core_of self.new) }
    {
        match call {
            Call::Piece {
                track,
                tag,
                samples,
            } => done(self.piece(alloc, *track, *tag, samples.as_slice())),
            Call::Pin => pinned(self.pin()),
            Call::PinLen { pin } => length(self.pin_len(*pin)),
            Call::ReadPin { pin, from, count } => self.read_reply(alloc, *pin, *from, *count),
            Call::LoadPin { pin, from, count } => self.load_reply(
                alloc,
                *pin,
                *from,
                *count as usize,
            ),
            Call::Unpin { pin } => let_go(self.unpin(*pin)),
            Call::Line { .. } => unreachable!(),
        }
    }

    // What is loaded of a pin from a place on, as many frames as there are, up to a number.
    fn load_reply(
        &mut self,
        alloc: Global,
        pin: u64,
        from: u64,
        count: usize,
    ) -> Result<Reply, Refusal>
        requires studio { IsStudio S.Store (core_of self.old) }
        requires most { count ≤ MAX_LOADED }
        requires few { from + count < 2 ^ 64 }
        ensures { Took S.Store (core_of self.old) (quietly (call.LoadPin pin from count) result) (core_of self.new) }
    {
        let mut loaded = Loaded::new(alloc);
        self.load_pin(pin, from, count, &mut loaded)?;
        let tracks = tracks_of(alloc, &loaded)?;
        Ok(Reply::Loaded {
            tracks: LoadedTracks::new(tracks),
        })
    }

    // The frames of a pin's mix from a place on, as many as there are, up to a number.
    fn read_reply(
        &mut self,
        alloc: Global,
        pin: u64,
        from: u64,
        count: u64,
    ) -> Result<Reply, Refusal>
        requires { IsStudio S.Store (core_of self.old) }
        ensures { Took S.Store (core_of self.old) (quietly (call.ReadPin pin from count) result) (core_of self.new) }
    {
        let most = frames_left(self.pin_len(pin)?, from, count);
        let mut frames = vec![in alloc; Frame { left: 0, right: 0 }; most]?;
        let read = self.read_pin(pin, from, frames.as_mut_slice())?;
        frames.truncate(read);
        Ok(Reply::Frames {
            frames: Frames::new(frames),
        })
    }
}
