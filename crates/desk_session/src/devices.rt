// The devices of a session.
use session_threads::Streams;

/// What is lent to a session: a vault, the streams of its script, a microphone and a speaker, and the gate that its
/// threads pass.
pub struct Devices<'v, 'a, 'o, 'm, 'p, 'g, V, A, O, M, P, G> {
    pub vault: &'v mut V,
    pub streams: Streams<'a, 'o, A, O>,
    pub mic: &'m mut M,
    pub speaker: &'p mut P,
    pub gate: &'g G,
}
