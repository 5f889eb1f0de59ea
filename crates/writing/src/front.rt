ghost use Rattle.std.specs.Prelude.{◌≡◌, ◌+◌, ◌<◌, ◌≤◌, [], ◌∷◌, ◌++◌, length};
ghost use Rattle.writing.specs.Fronts.{Stays, capacity_of, end_of, written};

use itoa::{Buffer, Integer};

// A text at the front of a lent buffer. It grows there, and what lies behind it stays as it was.
#[derive(Drop)]
pub struct Front<'a> {
    buffer: &'a mut [u8],
    end: usize,
}

impl<'a> Front<'a> {
    pub fn new(buffer: &'a mut [u8]) -> Front<'a>
        ensures same { result.buffer.ghost_name ≡ buffer.entry.ghost_name }
        ensures bytes { result.buffer.now ≡ buffer.old }
        ensures end { end_of result ≡ 0 }
    {
        Front { buffer, end: 0 }
    }

    // How long the text is.
    pub fn end(&self) -> usize
        ensures { result ≡ end_of self.now }
    {
        let Front { end, .. } = self;
        *end
    }

    pub fn push_byte(&mut self, byte: u8)
        requires { end_of self.old < capacity_of self.old }
        ensures end { end_of self.new ≡ end_of self.old + 1 }
        ensures wrote { written self.new ≡ written self.old ++ byte ∷ [] }
        ensures stays { Stays self.old self.new }
    {
        self.buffer[self.end] = byte;
        self.end += 1;
    }

    pub fn push_text(&mut self, text: &[u8])
        requires { end_of self.old + length text.now ≤ capacity_of self.old }
        ensures end { end_of self.new ≡ end_of self.old + length text.now }
        ensures wrote { written self.new ≡ written self.old ++ text.now }
        ensures stays { Stays self.old self.new }
    {
        let end = self.end + text.len();
        self.buffer[self.end..end].copy_from_slice(text);
        self.end = end;
    }

    // A space and a number in decimal digits: one field of a line.
    #[tactic(auto, using(crate::proofs::Staying::stays_then))]
    pub fn push_field<I: Integer>(&mut self, number: I)
        requires { end_of self.old + I.MAX_STR_LEN + 1 ≤ capacity_of self.old }
        ensures bound { end_of self.new ≤ end_of self.old + I.MAX_STR_LEN + 1 }
        ensures wrote { written self.new ≡ written self.old ++ 32 ∷ I.text number }
        ensures stays { Stays self.old self.new }
    {
        let mut digits = Buffer::new();
        let field = digits.format(number).as_bytes();
        self.push_byte(b' ');
        self.push_text(field);
    }
}
