ghost use Rattle.std.specs.Prelude.{ℤ, pos, ◌+ℤ◌, neg_ℤ, int_le, unsigned_abs};
ghost use Rattle.std.specs.Fmt.{signed_decimal};
ghost use Rattle.std.proofs.Common.{arith, rules};
ghost use Rattle.scales.specs.Printing.{signed_brief, signed_legible};

use crate::scale::Scale;
use crate::sums::OrderedSums;
use writing::Text;

// Whole milliseconds, possibly negative.
#[derive(Clone, Copy, Debug, PartialEq, Eq, PartialOrd, Ord)]
pub struct Ticks {
    pub ms: i64,
}

impl OrderedSums for Ticks {
    ghost Time = { ℤ };

    ghost means = { λ t. t.ms };

    ghost zero = { pos 0 };

    ghost plus = { ◌+ℤ◌ };

    ghost opposed = { neg_ℤ };

    ghost notafter = { int_le };

    ghost size = { unsigned_abs };

    ghost step = { pos 1 };

    ghost reading = { λ c. c };

    ghost printed = { signed_decimal };

    ghost associative = { Prim.search rules };

    ghost commutative = { Prim.search rules };

    ghost neutral = { Prim.search rules };

    ghost inverse = { Prim.search rules };

    ghost total = { Prim.search rules };

    ghost transitive = { Prim.search rules };

    ghost antisymmetric = { Prim.search rules };

    ghost shifted = { Prim.search rules };

    ghost sizeless = { Prim.search rules };

    ghost mirrored = { Prim.search rules };

    ghost subadditive = { Prim.search rules };

    ghost positive = { Prim.search rules };

    ghost discrete = { Prim.search rules };

    ghost fine = { Prim.search rules };

    ghost additive = { Prim.search rules };

    ghost increasing = { Prim.search rules };

    ghost near = { Prim.search rules };

    ghost enclosed = { Prim.search rules };

    ghost brief = { λ x h. omega (arith, signed_brief x h) };

    ghost legible = { signed_legible };

    fn zero() -> Ticks {
        Ticks { ms: 0 }
    }

    fn sum(self, other: Ticks) -> Ticks {
        Ticks {
            ms: self.ms + other.ms,
        }
    }

    fn opposite(self) -> Ticks {
        Ticks { ms: -self.ms }
    }

    fn not_after(self, other: Ticks) -> bool {
        self <= other
    }
}

impl Scale for Ticks {
    const CODE: u8 = 0;

    fn step() -> Ticks {
        Ticks { ms: 1 }
    }

    fn reading(number: i32) -> Ticks {
        Ticks {
            ms: i64::from(number),
        }
    }

    #[tactic(auto, using(std::proofs::lemmas::Grind::common_steps, crate::specs::Printing::signed_brief))]
    fn print(self) -> Text<32> {
        let mut text = Text::new();
        text.push_number(self.ms);
        text
    }
}
