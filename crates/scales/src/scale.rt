ghost use Rattle.std.specs.Prelude.{◌≡◌, ◌≤◌, pos, negsuc, ◌≤ℤ◌};

use crate::sums::OrderedSums;
use writing::Text;

// One kind of time that a book can be kept in.
pub trait Scale: OrderedSums {
    // The byte by which a session's heading names the scale.
    const CODE: u8;

    fn step() -> Self
        ensures { Self.OrderedSums.means result ≡ Self.OrderedSums.step };

    // The time of a whole number, which is at most 1,000,000,000 either way.
    fn reading(number: i32) -> Self
        requires { (negsuc 999999999 ≤ℤ number) × (number ≤ℤ pos 1000000000) }
        ensures { Self.OrderedSums.means result ≡ Self.OrderedSums.reading number };

    // The time in text.
    fn print(self) -> Text<32>
        requires { Self.OrderedSums.size (Self.OrderedSums.means self) ≤ 1000000000000 }
        ensures { result ≡ Self.OrderedSums.printed (Self.OrderedSums.means self) };
}
