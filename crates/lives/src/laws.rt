ghost use Rattle.std.specs.Prelude.{◌≡◌, true};
ghost use Rattle.lives.specs.Exact.{ExactAnswers};

use scales::Scale;

// Whatever calls answer is exact: a clash and what follows are told wherever they are so. The value is always true.
pub fn exact_answers<S: Scale>() -> bool
    ensures exact { ExactAnswers S.OrderedSums }
    ensures value { result ≡ true }
{
    true
}
