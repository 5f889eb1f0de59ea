// The reader of lines: the one place where a line becomes bounds, by the scale's step and reading.
ghost use Rattle.std.specs.Prelude.{◌≡◌};
ghost use Rattle.lines.specs.Proper.{Within};
ghost use Rattle.lines.specs.Bounding.{Weighs, base_of, edges_of, listed, number_of};

use crate::line::{Line, Right};
use crate::operator::Operator;
use bounds::Edge;
use scales::Scale;

// The edges of one line: one, or two where it says "with".
#[derive(Clone, Copy)]
pub struct LineEdges {
    pub first: Edge,
    pub second: Option<Edge>,
}

impl Line {
    // The place whose time the line's right side counts from: a device, or the origin.
    fn base(self, devices: u8) -> u8
        ensures { result ≡ base_of devices self.right }
    {
        match self.right {
            Right::Device(y) => y,
            Right::Constant(_) => devices,
        }
    }

    // The number that the right side adds to the time of its base.
    fn number(self) -> i32
        ensures { result ≡ number_of self.right }
    {
        match self.right {
            Right::Device(_) => 0,
            Right::Constant(c) => c,
        }
    }

    // What a bound of the line adds to the time that it goes from: with this weight, the edges of the line are met exactly by the
    // times that keep the line.
    pub fn weight<S: Scale>(self) -> S
        requires { Within self.right }
        ensures { Weighs S.OrderedSums self (S.OrderedSums.means result) }
    {
        let number = S::reading(self.number());
        match self.op {
            Operator::Before => S::step().sum(number.opposite()),
            Operator::NotAfter => number.opposite(),
            Operator::With | Operator::NotBefore => number,
            Operator::After => number.sum(S::step()),
        }
    }

    // The edges of the line among so many devices, with the line's weight at the given place.
    pub fn edges(self, devices: u8, weight: u16) -> LineEdges
        ensures { listed result ≡ edges_of devices weight self }
    {
        let base = self.base(devices);
        let up = Edge {
            at: self.x,
            from: base,
            weight,
            opposed: false,
        };
        let down = Edge {
            at: base,
            from: self.x,
            weight,
            opposed: false,
        };
        match self.op {
            Operator::Before | Operator::NotAfter => LineEdges {
                first: down,
                second: None,
            },
            Operator::With => LineEdges {
                first: up,
                second: Some(Edge {
                    opposed: true,
                    ..down
                }),
            },
            Operator::NotBefore | Operator::After => LineEdges {
                first: up,
                second: None,
            },
        }
    }
}
