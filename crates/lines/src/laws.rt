ghost use Rattle.std.specs.Prelude.{◌≡◌, true};
ghost use Rattle.lines.specs.Opposites.{Opposed};

use scales::OrderedSums;

// On every kind of time, of two times exactly one holds: an operator's comparison, or that by one of its opposites. The value
// is always true.
pub fn opposite_laws<S: OrderedSums>() -> bool
    ensures opposed { Opposed S.OrderedSums }
    ensures value { result ≡ true }
{
    true
}
