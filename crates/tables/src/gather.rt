// A book's lines as edges, with their weights.
ghost use Rattle.std.specs.Prelude.{◌≡◌, ◌+◌, ◌≤◌, ◌++◌, length};
ghost use Rattle.arrayvec.specs.ArrayVec.{array_vec_len};
ghost use Rattle.lines.specs.Bounding.{listed};
ghost use Rattle.tables.specs.Gathering.{Gathered, Picked, Spared, Weighed, edges_of_record};

use crate::choice::Choice;
use crate::table::Table;
use arrayvec::ArrayVec;
use bounds::Edge;
use lines::{Line, LineEdges};
use scales::Scale;

// The edges of a book's lines and of one more: two for each, where each says "with".
pub type Edges = ArrayVec<Edge, 802>;

// Adds the edges of one line.
pub fn append<const N: usize>(edges: &mut ArrayVec<Edge, N>, more: LineEdges)
    requires { array_vec_len edges.old + 2 ≤ N }
    ensures { edges.new.items ≡ edges.old.items ++ listed more }
{
    edges.push(more.first);
    if let Some(second) = more.second {
        edges.push(second);
    }
}

impl Table {
    // All numbers that have a line.
    pub fn standing(&self) -> Choice
        ensures { Picked self.now.lines result.picked }
    {
        let mut picked = [false; 400];
        for (number, line) in self.lines().iter().enumerate() {
            picked[number] = line.is_some();
        }
        Choice::of(picked)
    }

    // The edges of the chosen lines, each with its weight at the place of the line's number.
    pub fn gather(&self, choice: &Choice) -> Edges
        ensures bound { array_vec_len result ≤ 800 }
        ensures gathered { Gathered self.now.devices self.now.lines choice.now.picked 400 result.items }
    {
        let mut edges = Edges::new();
        self.gather_into(choice, &mut edges);
        edges
    }

    // The same edges, in place of those that the list held. A list that is lent is filled without a move, time after time.
    pub fn gather_into(&self, choice: &Choice, edges: &mut Edges)
        ensures bound { array_vec_len edges.new ≤ 800 }
        ensures gathered { Gathered self.now.devices self.now.lines choice.now.picked 400 edges.new.items }
    {
        edges.clear();
        for (number, line) in self.lines().iter().enumerate() {
            let chosen = choice.has(number);
            if chosen {
                self.gather_one(number as u16, *line, edges);
            }
        }
    }

    // Adds the edges of the line under one number, if there is one.
    fn gather_one(&self, number: u16, line: Option<Line>, edges: &mut Edges)
        requires { array_vec_len edges.old + 2 ≤ 802 }
        ensures { edges.new.items ≡ edges.old.items ++ edges_of_record self.now.devices number line }
    {
        if let Some(line) = line {
            append(edges, line.edges(self.devices(), number));
        }
    }

    // Works out the weight of each line, at the place of its number.
    pub fn weigh<S: Scale>(&self, weights: &mut [S])
        requires { 400 ≤ length weights.old }
        ensures weighed { Weighed S.OrderedSums self.now.lines weights.new }
        ensures others { Spared S.OrderedSums self.now.lines weights.old weights.new }
    {
        for (number, line) in self.lines().iter().enumerate() {
            if let Some(line) = line {
                weights[number] = line.weight();
            }
        }
    }
}
