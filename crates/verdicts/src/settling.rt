ghost use Rattle.std.specs.Prelude.{◌≤◌, length};
ghost use Rattle.tables.specs.Of.{devices_of, records_of};
ghost use Rattle.tables.specs.Tables.{Shows};
ghost use Rattle.verdicts.specs.Settling.{SettledAs};

use crate::bench::Bench;
use scales::Scale;
use tables::{Edges, Table};

// What settle answers: the first timetable stands in its buffer, or the numbers of so many lines that quarrel stand in theirs. Both are
// answers, and neither is an error, so that it is no `Result`.
#[derive(Clone, Copy, Debug, PartialEq)]
pub enum Settled {
    Times,
    Clash(u16),
}

// The first timetable of the standing lines, or some of them that quarrel, with none too many. The buffers are the caller's.
pub fn settle<S: Scale>(
    table: &Table,
    times: &mut [S],
    names: &mut [u16],
    work: &mut [S],
) -> Settled
    requires buffers { (devices_of table.now ≤ length times.old) × ((400 ≤ length names.old) × (1000 ≤ length work.old)) }
    ensures { SettledAs S.OrderedSums (devices_of table.now) (Shows (records_of table.now)) times.old names.old result times.new names.new }
{
    let mut edges = Edges::new();
    let mut bench = Bench::new(table, work, &mut edges);
    let mut choice = table.standing();
    if bench.shows(&choice, None, times) {
        return Settled::Times;
    }
    bench.reduce(&mut choice);
    Settled::Clash(choice.write(names))
}
