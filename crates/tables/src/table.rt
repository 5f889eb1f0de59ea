ghost use Rattle.std.specs.Prelude.{◌≡◌, ℕ, ◌<◌, ◌≤◌, true, length, replicate, None, slice_index_or, slice_set};
ghost use Rattle.tables.specs.Tables.{admits};

use lines::Line;

// The number of lines that a book has room for.
pub const NUMBERS: usize = 400;

// The records of a book: the number of devices, and under each number a line or none.
#[derive(Drop)]
pub struct Table {
    devices: u8,
    lines: [Option<Line>; 400],
    ghost some: { 1 ≤ devices },
    ghost few: { devices ≤ 200 },
    ghost full: { length lines ≡ 400 },
    ghost sound: { (k : ℕ) → admits devices (slice_index_or lines k None) ≡ true },
}

impl Table {
    pub fn new(devices: u8) -> Table
        requires { (1 ≤ devices) × (devices ≤ 200) }
        ensures devices { result.devices ≡ devices }
        ensures lines { result.lines ≡ replicate 400 None }
    {
        Table {
            devices,
            lines: [None; 400],
        }
    }

    pub fn devices(&self) -> u8
        ensures { result ≡ self.now.devices }
    {
        self.devices
    }

    // The line under a number, if there is one.
    pub fn line(&self, number: usize) -> Option<Line>
        ensures { result ≡ slice_index_or self.now.lines number None }
    {
        self.lines.get(number).copied().flatten()
    }

    // Under each number a line or none.
    pub(crate) fn lines(&self) -> &[Option<Line>; 400]
        ensures { result.now ≡ self.now.lines }
    {
        &self.lines
    }

    // Puts a line, or none, under one number.
    pub fn put(&mut self, at: usize, line: Option<Line>)
        requires within { at < 400 }
        requires admitted { admits self.old.devices line ≡ true }
        ensures devices { self.new.devices ≡ self.old.devices }
        ensures lines { self.new.lines ≡ slice_set self.old.lines at line }
    {
        self.lines[at] = line;
    }
}
