// What a command brings besides the blocks of the disk, where it has it in memory.
ghost use Rattle.std.specs.Prelude.{◌≡◌, ℕ, ◌+◌, ◌≤◌, ◌<◌, ◌^◌, pos, ◌+ℤ◌, ◌*ℤ◌, length, take, drop};
ghost use Rattle.pcm_base.specs.Pieces.{stretch};
ghost use Rattle.block_writer.specs.Bringing.{brought, brought_by, brought_count, ramp_samples};

use super::brings::Brings;
use super::fault::BringFault;
use pcm_base::clamped;

/// The samples that a command brings, in order.
#[derive(Clone, Copy)]
pub enum Given<'a> {
    /// It brings none.
    Nothing,
    /// These samples.
    Samples { samples: &'a [i16] },
    /// So many samples from `start` on in steps, each limited to what a sample can be.
    Ramp { start: i16, step: i16, count: u32 },
}

/// A sample of a ramp, not yet limited.
fn ramp_value(start: i16, step: i16, i: u32) -> i64
    ensures { result ≡ start +ℤ pos i *ℤ step }
{
    i64::from(start) + i64::from(i) * i64::from(step)
}

/// The samples of a ramp from a place on.
fn fill_ramp(start: i16, step: i16, from: u32, out: &mut [i16])
    requires { from + length out.old < 2 ^ 32 }
    ensures { out.new ≡ ramp_samples start step from (length out.old) }
{
    for i in 0..out.len() {
        out[i] = clamped(ramp_value(start, step, from + i as u32));
    }
}

/// The samples of a slice from a place on.
fn fill_samples(samples: &[i16], from: u64, out: &mut [i16])
    requires { from + length out.old ≤ length samples.now }
    ensures { out.new ≡ take (length out.old) (drop from samples.now) }
{
    let rest = &samples[from as usize..];
    out.copy_from_slice(&rest[..out.len()]);
}

impl Given<'_> {
    /// Makes `out` the samples from a place on, all of which there are.
    fn put(&self, from: u64, out: &mut [i16])
        requires { from + length out.old ≤ brought_count self.now }
        ensures { out.new ≡ stretch (brought self.now) from (length out.old) }
    {
        match *self {
            Given::Nothing => {}
            Given::Samples { samples } => fill_samples(samples, from, out),
            Given::Ramp {
                start,
                step,
                count: _count,
            } => fill_ramp(start, step, from as u32, out),
        }
    }
}

impl Brings for Given<'_> {
    ghost brings = { brought_by };

    ghost fault_count = { λ _. 0 };

    ghost follows = { λ first given. Unit {0} };

    fn fill(&mut self, from: u64, out: &mut [i16], _buf: &mut [u8]) -> Result<(), BringFault> {
        self.put(from, out);
        Ok(())
    }
}
