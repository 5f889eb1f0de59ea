ghost use Rattle.std.specs.Prelude.{◌≡◌, ◌+◌, ◌≤◌, ◌++◌, length, pos};
ghost use Rattle.scales.specs.Pairs.{Pair, pair, sum_of, opposite, leads, extent, shown, shown_steps};
ghost use Rattle.scales.specs.PairsLemmas.{sum_assoc, leads_trans, leads_shifted};
ghost use Rattle.std.proofs.Common.{arith, rules};
ghost use Rattle.scales.specs.Printing.{shown_brief, shown_legible};

use crate::scale::Scale;
use crate::sums::OrderedSums;
use writing::Text;

// Milliseconds and a number of steps, each smaller than any part of a millisecond.
#[derive(Clone, Copy, Debug, PartialEq, Eq, PartialOrd, Ord)]
pub struct Stepless {
    pub ms: i64,
    pub steps: i64,
}

impl OrderedSums for Stepless {
    ghost Time = { Pair };

    ghost means = { λ t. pair t.ms t.steps };

    ghost zero = { pair (pos 0) (pos 0) };

    ghost plus = { sum_of };

    ghost opposed = { opposite };

    ghost notafter = { leads };

    ghost size = { extent };

    ghost step = { pair (pos 0) (pos 1) };

    ghost reading = { λ c. pair c (pos 0) };

    ghost printed = { shown };

    ghost associative = { sum_assoc };

    ghost commutative = { Prim.search rules };

    ghost neutral = { Prim.search rules };

    ghost inverse = { Prim.search rules };

    ghost total = { Prim.search rules };

    ghost transitive = { leads_trans };

    ghost antisymmetric = { Prim.search rules };

    ghost shifted = { leads_shifted };

    ghost sizeless = { Prim.search rules };

    ghost mirrored = { Prim.search rules };

    ghost subadditive = { Prim.search rules };

    ghost positive = { Prim.search rules };

    ghost discrete = { Prim.search rules };

    ghost fine = { Prim.search rules };

    ghost additive = { Prim.search rules };

    ghost increasing = { Prim.search rules };

    ghost near = { Prim.search rules };

    ghost enclosed = { Prim.search rules };

    ghost brief = { λ x h. omega (arith, shown_brief x h) };

    ghost legible = { shown_legible };

    fn zero() -> Stepless {
        Stepless { ms: 0, steps: 0 }
    }

    fn sum(self, other: Stepless) -> Stepless {
        Stepless {
            ms: self.ms + other.ms,
            steps: self.steps + other.steps,
        }
    }

    fn opposite(self) -> Stepless {
        Stepless {
            ms: -self.ms,
            steps: -self.steps,
        }
    }

    fn not_after(self, other: Stepless) -> bool {
        self <= other
    }
}

impl Scale for Stepless {
    const CODE: u8 = 1;

    fn step() -> Stepless {
        Stepless { ms: 0, steps: 1 }
    }

    fn reading(number: i32) -> Stepless {
        Stepless {
            ms: i64::from(number),
            steps: 0,
        }
    }

    #[tactic(auto, using(std::proofs::lemmas::Grind::common_steps, crate::specs::Printing::signed_brief, crate::specs::Printing::steps_brief))]
    fn print(self) -> Text<32> {
        let mut text = Text::new();
        text.push_number(self.ms);
        push_steps(&mut text, self.steps);
        text
    }
}

// Nothing for no step, else the sign and the number.
fn push_steps<const N: usize>(text: &mut Text<N>, steps: i64)
    requires { length text.old + length (shown_steps steps) ≤ N }
    ensures { text.new ≡ text.old ++ shown_steps steps }
{
    if steps == 0 {
        return;
    }
    text.push_byte(if steps < 0 { b'-' } else { b'+' });
    text.push_number(steps.unsigned_abs());
}
