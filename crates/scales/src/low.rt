ghost use Rattle.std.specs.Prelude.{◌≡◌, ◌≤◌, negsuc};
ghost use Rattle.scales.specs.Low.{Low};

use crate::scale::Scale;

// The reading of -1,000,000,000: a start so low that no walk of 406 strides, each of a size of at most 1,000,150, comes up
// from it to zero.
pub fn low_start<S: Scale>() -> S
    ensures reads { S.OrderedSums.means result ≡ S.OrderedSums.reading (negsuc 999999999) }
    ensures size { S.OrderedSums.size (S.OrderedSums.means result) ≤ 1000000050 }
    ensures low { Low S.OrderedSums 1000150 406 (S.OrderedSums.means result) }
{
    S::reading(-1_000_000_000)
}
