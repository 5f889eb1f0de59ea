ghost use Rattle.std.specs.Prelude.{◌≤◌, length};
ghost use Rattle.lines.specs.Proper.{Limited};
ghost use Rattle.tables.specs.Of.{devices_of, records_of};
ghost use Rattle.tables.specs.Tables.{Shows};
ghost use Rattle.verdicts.specs.Following.{FollowedAs};

use crate::bench::Bench;
use lines::Line;
use scales::Scale;
use tables::{Edges, Table};

// What follows answers: yes, or no with a timetable that shows it in its buffer. The words are those of the printed line, which a bool
// would not tell.
#[derive(Clone, Copy, Debug, PartialEq)]
pub enum Followed {
    Yes,
    No,
}

// Whether every timetable that keeps the standing lines keeps this line. If not, the first timetable of the standing lines and the
// line's opposite is shown. The buffers are the caller's.
pub fn follows<S: Scale>(table: &Table, line: Line, times: &mut [S], work: &mut [S]) -> Followed
    requires limited { Limited (devices_of table.now) line }
    requires buffers { (devices_of table.now ≤ length times.old) × (1000 ≤ length work.old) }
    ensures { FollowedAs S.OrderedSums (devices_of table.now) (Shows (records_of table.now)) line times.old result times.new }
{
    let mut edges = Edges::new();
    let mut bench = Bench::new(table, work, &mut edges);
    let standing = table.standing();
    let (first, second) = line.op.opposites();
    if bench.shows(&standing, Some(Line { op: first, ..line }), times) {
        return Followed::No;
    }
    let Some(second) = second else {
        return Followed::Yes;
    };
    if bench.shows(&standing, Some(Line { op: second, ..line }), times) {
        return Followed::No;
    }
    Followed::Yes
}
