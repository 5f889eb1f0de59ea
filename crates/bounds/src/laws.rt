ghost use Rattle.std.specs.Prelude.{◌≡◌, true};
ghost use Rattle.bounds.specs.Closure.{Closed};
ghost use Rattle.bounds.specs.Lowering.{Lowering};
ghost use Rattle.bounds.specs.Mirror.{Mirrored};

use scales::OrderedSums;

// Laws of solutions, for every kind of time: which others there are beside one, that latest times are least times of the
// exchanged bounds, opposed, and which least times from a low start can be lowered, all else kept. The value is always true.
pub fn solution_laws<S: OrderedSums>() -> bool
    ensures closed { Closed S.OrderedSums }
    ensures mirrored { Mirrored S.OrderedSums }
    ensures lowered { Lowering S.OrderedSums }
    ensures value { result ≡ true }
{
    true
}
