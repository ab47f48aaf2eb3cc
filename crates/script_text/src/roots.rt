// The integer square root, by an estimate that is tested.
ghost use Rattle.std.specs.Prelude.{◌≡◌, ◌+◌, ◌*◌, ◌<◌, ◌≤◌, true};
ghost use Rattle.pcm_base.specs.Arithmetic.{integer_root};

use pcm_base::isqrt;
use std::num::saturating_f64_to_u32;

// Whether a number is the integer square root of another one.
fn is_root(n: u64, root: u32) -> bool
    ensures below { result ≡ true → root * root ≤ n }
    ensures above { result ≡ true → n < (root + 1) * (root + 1) }
{
    let root = u64::from(root);
    let square = root * root;
    square <= n && n - square <= 2 * root
}

/// The integer square root. That of a number of 32 bits is mostly the processor's own, without its fraction.
pub fn root(n: u64) -> u64
    ensures { result ≡ integer_root n }
{
    if let Ok(small) = u32::try_from(n) {
        let root = saturating_f64_to_u32(f64::from(small).sqrt());
        if is_root(n, root) {
            return u64::from(root);
        }
    }
    isqrt(n)
}
