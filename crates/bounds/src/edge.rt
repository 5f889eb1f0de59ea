ghost use Rattle.std.specs.Prelude.{◌≡◌, map};
ghost use Rattle.bounds.specs.Mirror.{exchanged};

// A bound as it is handed in: the time at `at` is not before the time at `from` and a weight together. The weight is the
// one at that place of a row of weights, or, where it is opposed, its opposite. Devices go by their numbers, and the origin by the number
// behind the last. The flag stays beside the place: both kinds have one, so that an enum of the two would read no plainer.
#[derive(Clone, Copy, Debug, Default, PartialEq, Eq)]
pub struct Edge {
    pub at: u8,
    pub from: u8,
    pub weight: u16,
    pub opposed: bool,
}

impl Edge {
    // The edge with its ends exchanged.
    fn exchanged(self) -> Edge
        ensures { result ≡ exchanged self }
    {
        Edge {
            at: self.from,
            from: self.at,
            ..self
        }
    }
}

// Exchanges the ends of every edge: latest times under the edges are the opposites of least times under the exchanged ones.
pub fn turn(edges: &mut [Edge])
    ensures { edges.new ≡ map exchanged edges.old }
{
    for edge in edges.iter_mut() {
        *edge = edge.exchanged();
    }
}
