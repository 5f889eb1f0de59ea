// Whether lines can be kept together, and which times they leave a device: searches over the lines of a table.
ghost use Rattle.std.specs.Prelude.{◌≡◌, ◌+◌, ◌<◌, ◌≤◌, length, IfSome};
ghost use Rattle.lines.specs.Proper.{Limited};
ghost use Rattle.bounds.specs.Bounds.{Ready, bounds, times_of};
ghost use Rattle.bounds.specs.Ends.{LeastEnd};
ghost use Rattle.tables.specs.Of.{devices_of, picked_of, records_of};
ghost use Rattle.verdicts.specs.Benches.{Weighted};
ghost use Rattle.verdicts.specs.Covering.{Covers};
ghost use Rattle.verdicts.specs.Verdicts.{Shown, Verdict, chosen_lines};

use bounds::{System, Unmet};
use lines::Line;
use scales::{Scale, low_start};
use tables::{Choice, Edges, Table, append};

// The work buffer has two rows of times at its front, for 200 devices and the origin each, and behind them the weights of lines.
const ROW: usize = 201;

const ROWS: usize = 402;

// The number that one more line goes by, behind those of the table.
const MORE: u16 = 400;

// What searches over the lines of a table work with: two rows of times, the weight of each line at the place of its number, and a list
// for the edges of a search, so that it is made once and not moved.
#[derive(Drop)]
pub(crate) struct Bench<'a, S: Scale> {
    table: &'a Table,
    row: &'a mut [S],
    spare: &'a mut [S],
    weights: &'a mut [S],
    pub(crate) edges: &'a mut Edges,
    ghost row_full: { length row.now ≡ devices_of table.now + 1 },
    ghost spare_full: { length spare.now ≡ devices_of table.now + 1 },
    ghost places: { 401 ≤ length weights.now },
    ghost weighed: { Weighted S.OrderedSums (records_of table.now) weights.now },
}

impl<'a, S: Scale> Bench<'a, S> {
    // Lays the work buffer out, and weighs the lines.
    pub(crate) fn new(table: &'a Table, work: &'a mut [S], edges: &'a mut Edges) -> Bench<'a, S>
        requires { 1000 ≤ length work.old }
        ensures { result.table.now ≡ table.now }
    {
        let places = table.devices() as usize + 1;
        let (rows, weights) = work.split_at_mut(ROWS);
        let (row, spare) = rows.split_at_mut(ROW);
        table.weigh(weights);
        Bench {
            table,
            row: &mut row[..places],
            spare: &mut spare[..places],
            weights,
            edges,
        }
    }

    // Lists the edges of the chosen lines and of the one more, which is weighed too. That it is within its limits is asked by each call that
    // hands it on: a type for it would have to carry the number of devices. And each says that the table is the same, since the bench is lent
    // whole.
    pub(crate) fn cover(&mut self, choice: &Choice, more: Option<Line>)
        requires limited { IfSome more (Limited (devices_of self.old.table.now)) }
        ensures table { self.new.table ≡ self.old.table }
        ensures covers { Covers S.OrderedSums (devices_of self.old.table.now) self.new.weights.now self.new.edges.now.items (chosen_lines (records_of self.old.table.now) (picked_of choice.now) more) }
    {
        self.table.gather_into(choice, self.edges);
        if let Some(line) = more {
            self.weights[MORE as usize] = line.weight();
            append(self.edges, line.edges(self.table.devices(), MORE));
        }
    }

    // Whether some timetable keeps the chosen lines and the one more. If so, the first of them stands in `row`. A question has yes or no
    // for its answer, here and in `shows`: of a Result, all callers but one would ask which it is.
    pub(crate) fn keepable(&mut self, choice: &Choice, more: Option<Line>) -> bool
        requires limited { IfSome more (Limited (devices_of self.old.table.now)) }
        ensures table { self.new.table ≡ self.old.table }
        ensures verdict { Verdict S.OrderedSums (devices_of self.old.table.now) (chosen_lines (records_of self.old.table.now) (picked_of choice.now) more) (times_of S.OrderedSums self.new.row.now) result }
    {
        self.cover(choice, more);
        let devices = self.table.devices() as usize;
        let weights = &mut *self.weights;
        let edges = &mut *self.edges;
        let system = System {
            devices,
            edges: edges.as_slice(),
            weights,
        };
        system
            .least_times(low_start(), self.row, self.spare)
            .is_ok()
    }

    // The same verdict, with the first timetable at the front of `times`.
    pub(crate) fn shows(&mut self, choice: &Choice, more: Option<Line>, times: &mut [S]) -> bool
        requires buffer { devices_of self.old.table.now ≤ length times.old }
        requires limited { IfSome more (Limited (devices_of self.old.table.now)) }
        ensures table { self.new.table ≡ self.old.table }
        ensures shown { Shown S.OrderedSums (devices_of self.old.table.now) (chosen_lines (records_of self.old.table.now) (picked_of choice.now) more) times.old result times.new }
    {
        let kept = self.keepable(choice, more);
        if kept {
            let devices = self.table.devices() as usize;
            times[..devices].copy_from_slice(&self.row[..devices]);
        }
        kept
    }

    // The least time of a device under the listed edges, if there is a least one.
    pub(crate) fn least_end(&mut self, device: u8) -> Result<Option<S>, Unmet>
        requires device { device < devices_of self.old.table.now }
        requires ready { Ready S.OrderedSums (devices_of self.old.table.now) self.old.weights.now self.old.edges.now.items }
        ensures table { self.new.table ≡ self.old.table }
        ensures weights { self.new.weights.now ≡ self.old.weights.now }
        ensures edges { self.new.edges.now ≡ self.old.edges.now }
        ensures least { LeastEnd S.OrderedSums (devices_of self.old.table.now) (bounds S.OrderedSums self.old.weights.now self.old.edges.now.items) device result }
    {
        let devices = self.table.devices() as usize;
        let weights = &mut *self.weights;
        let edges = &mut *self.edges;
        let system = System {
            devices,
            edges: edges.as_slice(),
            weights,
        };
        system.least_end(low_start(), device as usize, self.row, self.spare)
    }
}
