ghost use Rattle.std.specs.Prelude.{◌≡◌, ℕ, ◌+◌, ◌≤◌, Bool, T, ◌⊎◌, List, length, ℤ, pos, ◌+ℤ◌, neg_ℤ, ◌<ℤ◌, unsigned_abs};

// Times that have sums and an order. A value of an implementation means one time, several values may mean the same one,
// and there may be times that no value means: the laws are about times.
pub trait OrderedSums: Copy {
    // The times, and the time that a value means.
    ghost Time: { Type 0 };

    ghost means: { Self → Time };

    ghost zero: { Time };

    ghost plus: { Time → Time → Time };

    ghost opposed: { Time → Time };

    // Whether the first time is not after the second.
    ghost notafter: { Time → Time → Bool };

    ghost size: { Time → ℕ };

    // The least time above zero.
    ghost step: { Time };

    // The time that a whole number of milliseconds stands for.
    ghost reading: { ℤ → Time };

    // The bytes that a time is printed as.
    ghost printed: { Time → List ℕ };

    fn zero() -> Self
        ensures { means result ≡ zero };

    fn sum(self, other: Self) -> Self
        requires { size (means self) + size (means other) ≤ 1000000000000 }
        ensures { means result ≡ plus (means self) (means other) };

    fn opposite(self) -> Self
        requires { size (means self) ≤ 1000000000000 }
        ensures { means result ≡ opposed (means self) };

    fn not_after(self, other: Self) -> bool
        ensures { result ≡ notafter (means self) (means other) };

    ghost associative: { (x y z : Time) → plus (plus x y) z ≡ plus x (plus y z) };

    ghost commutative: { (x y : Time) → plus x y ≡ plus y x };

    ghost neutral: { (x : Time) → plus x zero ≡ x };

    ghost inverse: { (x : Time) → plus x (opposed x) ≡ zero };

    ghost total: { (x y : Time) → T (notafter x y) ⊎ T (notafter y x) };

    ghost transitive: { (x y z : Time) → T (notafter x y) → T (notafter y z) → T (notafter x z) };

    ghost antisymmetric: { (x y : Time) → T (notafter x y) → T (notafter y x) → x ≡ y };

    ghost shifted: { (x y z : Time) → T (notafter x y) → T (notafter (plus x z) (plus y z)) };

    ghost sizeless: { size zero ≡ 0 };

    ghost mirrored: { (x : Time) → size (opposed x) ≡ size x };

    ghost subadditive: { (x y : Time) → size (plus x y) ≤ size x + size y };

    // The step is above zero, and no time lies between the two.
    ghost positive: { T (notafter step zero) → ⊥ };

    ghost discrete: { (x : Time) → T (notafter x zero) ⊎ T (notafter step x) };

    ghost fine: { size step ≤ 50 };

    ghost additive: { (a b : ℤ) → reading (a +ℤ b) ≡ plus (reading a) (reading b) };

    // A larger number reads strictly later.
    ghost increasing: { (a b : ℤ) → a <ℤ b → T (notafter (reading b) (reading a)) → ⊥ };

    ghost near: { (c : ℤ) → size (reading c) ≤ unsigned_abs c + 50 };

    // Every time lies between the readings of minus its size and of its size, ends counted.
    ghost enclosed: { (x : Time) → T (notafter (reading (neg_ℤ (pos (size x)))) x) × T (notafter x (reading (pos (size x)))) };

    ghost brief: { (x : Time) → size x ≤ 1000000000000 → length (printed x) ≤ 32 };

    // Different times never print alike.
    ghost legible: { (x y : Time) → size x ≤ 1000000000000 → size y ≤ 1000000000000 → printed x ≡ printed y → x ≡ y };
}
