// Who brings samples for new blocks.
ghost use Rattle.std.specs.Prelude.{◌≡◌, ◌+◌, ◌≤◌, ℕ, length, All, FitsSigned, false, IsTrue, OnOk, IfErr};
ghost use Rattle.std.specs.Int.{w16};
ghost use Rattle.pcm_base.specs.Pieces.{stretch};
ghost use Rattle.block_writer.specs.Brought.{Brought, IsNotBrought, BroughtCounted};

use super::fault::BringFault;

/// The samples that a command brings beside the blocks of the disk, each by its place.
///
/// They may be in memory, or in a sound of a vault. A vault may fail, or give fewer bytes than it said.
pub trait Brings {
    // What is known of the samples. No call changes that.
    ghost brings: { Self → Brought };

    // How many calls to a vault failed, up to the greatest u64.
    ghost fault_count: { Self → ℕ };

    // What has become of the first after some calls, such as that it still reads by the same reference.
    ghost follows: { Self → Self → Type 0 };

    /// Makes `out` the samples from a place on, all of which there are. Bytes of a vault are read into `buf` first, a
    /// piece at a time. After an error `out` may hold anything.
    fn fill(&mut self, from: u64, out: &mut [i16], buf: &mut [u8]) -> Result<(), BringFault>
        requires within { from + length out.old ≤ (brings self.old).count }
        requires room { 64 ≤ length buf.old }
        ensures filled { IsTrue (brings self.old).tells
            → OnOk result (out.new ≡ stretch (brings self.old).samples from (length out.old)) }
        ensures fit { (brings self.old).tells ≡ false → OnOk result (All (λ s. FitsSigned w16 s) out.new) }
        ensures refused { IfErr result (IsNotBrought (brings self.old)) }
        ensures same { brings self.new ≡ brings self.old }
        ensures goes { (first : Self) → follows first self.old → follows first self.new }
        ensures faults { BroughtCounted result (fault_count self.old) (fault_count self.new) };
}
