// A source and a sink that were lent.
ghost use Rattle.std.specs.Prelude.{◌≡◌};

use edit_ports::{Sink, Source};
use pcm_base::Failed;

/// A source that was lent. It can be dropped, even where the source itself cannot.
#[derive(Drop)]
pub struct LentSource<'a, M> {
    pub source: &'a mut M,
}

impl<'a, M: Source> Source for LentSource<'a, M> {
    ghost use Rattle.edit_ports.specs.Told.{Open};

    ghost left = { λ s. M.left s.source.now };

    ghost fault_count = { λ s. M.fault_count s.source.now };

    // It is the same that was lent, and what that follows at first it follows still.
    ghost follows = { λ first course s. (s.source.ghost_name ≡ first.source.ghost_name)
        × ((before : _) → M.follows before Open first.source.now → M.follows before course s.source.now) };

    fn read(&mut self, buf: &mut [u8]) -> Result<usize, Failed> {
        self.source.read(buf)
    }

    fn faults(&self) -> u64 {
        self.source.faults()
    }
}

/// A sink that was lent. It can be dropped, even where the sink itself cannot.
#[derive(Drop)]
pub struct LentSink<'a, P> {
    pub sink: &'a mut P,
}

impl<'a, P: Sink> Sink for LentSink<'a, P> {
    ghost use Rattle.std.specs.Prelude.{false};

    ghost written = { λ s. P.written s.sink.now };

    ghost fault_count = { λ s. P.fault_count s.sink.now };

    // It is the same that was lent, and what that follows at first it follows still.
    ghost follows = { λ first failed s. (s.sink.ghost_name ≡ first.sink.ghost_name)
        × ((before : _) → P.follows before false first.sink.now → P.follows before failed s.sink.now) };

    fn write(&mut self, bytes: &[u8]) -> Result<usize, Failed> {
        self.sink.write(bytes)
    }

    fn faults(&self) -> u64 {
        self.sink.faults()
    }
}

/// Takes a reference back that was lent to a thread and handed back: this use ties it to the one that was lent, so that
/// what it leads to is what stands after the lender's.
pub fn take_back<T>(lent: &mut T)
    ensures { lent.new ≡ lent.old }
{}
