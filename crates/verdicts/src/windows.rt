ghost use Rattle.std.specs.Prelude.{◌<◌, ◌≤◌, length, MatchResult};
ghost use Rattle.lines.specs.Quarrels.{standing};
ghost use Rattle.lines.specs.Timetables.{Clashes};
ghost use Rattle.tables.specs.Of.{devices_of, records_of};
ghost use Rattle.tables.specs.Tables.{Shows};
ghost use Rattle.verdicts.specs.Windows.{Window};

use crate::bench::Bench;
use bounds::{Unmet, turn};
use scales::Scale;
use tables::{Edges, Table};

// The earliest and the latest time that any timetable keeping the standing lines gives a device: the least time under their edges,
// and the opposite of the least time under the edges with their ends exchanged. An error says that the lines clash. The
// buffer is the caller's.
pub fn window<S: Scale>(
    table: &Table,
    device: u8,
    work: &mut [S],
) -> Result<(Option<S>, Option<S>), Unmet>
    requires device { device < devices_of table.now }
    requires buffer { 1000 ≤ length work.old }
    ensures { MatchResult result (Window S.OrderedSums (standing (Shows (records_of table.now))) device) (λ _. Clashes S.OrderedSums (standing (Shows (records_of table.now)))) }
{
    let mut edges = Edges::new();
    let mut bench = Bench::new(table, work, &mut edges);
    bench.cover(&table.standing(), None);
    let earliest = bench.least_end(device)?;
    turn(bench.edges.as_mut_slice());
    match bench.least_end(device)? {
        None => Ok((earliest, None)),
        Some(time) => Ok((earliest, Some(time.opposite()))),
    }
}
