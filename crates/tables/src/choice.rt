ghost use Rattle.std.specs.Prelude.{◌≡◌, ◌<◌, ◌≤◌, false, length, take, drop, slice_index_or, slice_set};
ghost use Rattle.tables.specs.Naming.{Named};

// Some of a book's line numbers.
#[derive(Drop)]
pub struct Choice {
    picked: [bool; 400],
    ghost full: { length picked ≡ 400 },
}

impl Choice {
    // The numbers at which `picked` is true.
    pub fn of(picked: [bool; 400]) -> Choice
        ensures { result.picked ≡ picked }
    {
        Choice { picked }
    }

    pub fn has(&self, number: usize) -> bool
        ensures { result ≡ slice_index_or self.now.picked number false }
    {
        matches!(self.picked.get(number), Some(true))
    }

    pub fn put(&mut self, at: usize, within: bool)
        requires { at < 400 }
        ensures { self.new.picked ≡ slice_set self.old.picked at within }
    {
        self.picked[at] = within;
    }

    // Writes the chosen numbers, rising, to the front of `names`, and answers how many they are. The buffer is the caller's own: a book's
    // calls are lent all memory that they use.
    pub fn write(&self, names: &mut [u16]) -> u16
        requires { 400 ≤ length names.old }
        ensures few { result ≤ 400 }
        ensures named { Named self.now.picked 400 (take result names.new) }
        ensures rest { drop result names.new ≡ drop result names.old }
    {
        let mut count: u16 = 0;
        for (number, picked) in self.picked.iter().enumerate() {
            if *picked {
                names[count as usize] = number as u16;
                count += 1;
            }
        }
        count
    }
}
