// The text of a printed line, built from bytes, texts and numbers.
#![tactic(auto)]

ghost use Rattle.std.specs.Prelude.{◌≡◌, ◌+◌, ◌<◌, ◌≤◌, [], ◌∷◌, ◌++◌, length};

mod front;

use arrayvec::ArrayVec;
pub use front::Front;
use itoa::{Buffer, Integer};
use std::marker::Model;

// A text of at most N bytes, which lie in the value itself.
#[derive(Drop)]
pub struct Text<const N: usize> {
    bytes: ArrayVec<u8, N>,
}

// Clauses see the bytes.
impl<const N: usize> Model for Text<N> {
    ghost use Rattle.std.specs.Prelude.{ℕ, List};

    ghost Value = { List ℕ };

    ghost view = { λ t. t.bytes.items };
}

impl<const N: usize> Text<N> {
    pub fn new() -> Text<N>
        ensures { result ≡ [] }
    {
        Text {
            bytes: ArrayVec::new(),
        }
    }

    pub fn as_slice(&self) -> &[u8]
        ensures value { result.now ≡ self.now }
        ensures fits { length self.now ≤ N }
    {
        self.bytes.as_slice()
    }

    pub fn push_byte(&mut self, byte: u8)
        requires { length self.old < N }
        ensures { self.new ≡ self.old ++ byte ∷ [] }
    {
        self.bytes.push(byte);
    }

    pub fn push_text(&mut self, text: &[u8])
        requires { length self.old + length text.now ≤ N }
        ensures { self.new ≡ self.old ++ text.now }
    {
        let Ok(()) = self.bytes.try_extend_from_slice(text) else {
            unreachable()
        };
    }

    // The number in decimal digits, with no zero in front, behind a minus sign where it is below zero.
    pub fn push_number<I: Integer>(&mut self, number: I)
        requires { length self.old + length (I.text number) ≤ N }
        ensures { self.new ≡ self.old ++ I.text number }
    {
        let mut digits = Buffer::new();
        self.push_text(digits.format(number).as_bytes());
    }

    // A space and a number: one field of a line.
    pub fn push_field<I: Integer>(&mut self, number: I)
        requires { length self.old + I.MAX_STR_LEN + 1 ≤ N }
        ensures bound { length self.new ≤ length self.old + I.MAX_STR_LEN + 1 }
        ensures wrote { self.new ≡ self.old ++ 32 ∷ I.text number }
    {
        let mut digits = Buffer::new();
        let field = digits.format(number).as_bytes();
        self.push_byte(b' ');
        self.push_text(field);
    }
}
