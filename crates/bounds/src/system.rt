ghost use Rattle.std.specs.Prelude.{◌≤◌};
ghost use Rattle.bounds.specs.Bounds.{Ready};

use crate::edge::Edge;
use scales::OrderedSums;

// A system of bounds on the times of so many devices and the origin: edges, and the row of weights that they speak of.
#[derive(Drop)]
pub struct System<'e, 'w, S: OrderedSums> {
    pub devices: usize,
    pub edges: &'e [Edge],
    pub weights: &'w [S],
    ghost few: { devices ≤ 200 },
    ghost ready: { Ready S.OrderedSums devices weights.now edges.now },
}

// No times meet the bounds.
#[derive(Clone, Copy, Debug, PartialEq, Eq)]
pub struct Unmet;
