// From lines that clash, a choice of them that clashes with none too many.
ghost use Rattle.std.specs.Prelude.{◌≡◌, None};
ghost use Rattle.lines.specs.Timetables.{Clashes};
ghost use Rattle.tables.specs.Of.{picked_of, records_of};
ghost use Rattle.verdicts.specs.Choosing.{Dropped, Reduced};
ghost use Rattle.tables.specs.Gathering.{Chosen};
ghost use Rattle.verdicts.specs.Verdicts.{chosen_lines};

use crate::bench::Bench;
use scales::Scale;
use tables::{Choice, NUMBERS};

impl<S: Scale> Bench<'_, S> {
    // Takes every number out of the choice that the clash can do without.
    pub(crate) fn reduce(&mut self, choice: &mut Choice)
        requires clash { Clashes S.OrderedSums (chosen_lines (records_of self.old.table.now) (picked_of choice.old) None) }
        ensures table { self.new.table ≡ self.old.table }
        ensures reduced { Reduced S.OrderedSums (records_of self.old.table.now) (picked_of choice.old) (picked_of choice.new) 400 }
    {
        // the choice changes meanwhile, so that it is asked number by number
        for number in 0..NUMBERS {
            if choice.has(number) {
                self.drop_idle(choice, number);
            }
        }
    }

    // Takes one number out of the choice, unless the lines can be kept without it.
    fn drop_idle(&mut self, choice: &mut Choice, number: usize)
        requires chosen { Chosen (picked_of choice.old) number }
        ensures table { self.new.table ≡ self.old.table }
        ensures dropped { Dropped S.OrderedSums (records_of self.old.table.now) number (picked_of choice.old) (picked_of choice.new) }
    {
        choice.put(number, false);
        if self.keepable(choice, None) {
            choice.put(number, true);
        }
    }
}
