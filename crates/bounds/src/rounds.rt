ghost use Rattle.std.specs.Prelude.{◌≡◌, ◌+◌, ◌-◌, ◌<◌, ◌≤◌, length, if◌then◌else◌};
ghost use Rattle.bounds.specs.Bounds.{Fit, bound_of, bounds, times_of};
ghost use Rattle.bounds.specs.Least.{Searched};
ghost use Rattle.bounds.specs.Rounds.{Begun, Compared, Raised, Round, Small};

use crate::edge::Edge;
use crate::system::{System, Unmet};
use scales::OrderedSums;

// Puts each device at `start`, and the origin, behind the last, at zero.
fn begin<S: OrderedSums>(devices: usize, start: S, times: &mut [S])
    requires { length times.old ≡ devices + 1 }
    ensures { Begun S.OrderedSums devices (S.OrderedSums.means start) (times_of S.OrderedSums times.new) }
{
    times.fill_with(|| start);
    times[devices] = S::zero();
}

// The weight, or its opposite.
fn directed<S: OrderedSums>(weight: S, opposed: bool) -> S
    requires { S.OrderedSums.size (S.OrderedSums.means weight) ≤ 1000000000000 }
    ensures { S.OrderedSums.means result ≡ (if opposed then S.OrderedSums.opposed (S.OrderedSums.means weight) else S.OrderedSums.means weight) }
{
    if opposed { weight.opposite() } else { weight }
}

// Raises the new time at the edge's end to what the edge asks of the old times.
fn raise<S: OrderedSums>(edge: Edge, weights: &[S], old: &[S], new: &mut [S])
    requires rows { length new.old ≡ length old.now }
    requires fit { Fit S.OrderedSums (length old.now - 1) weights.now edge }
    requires some { 0 < length old.now }
    requires small { Small S.OrderedSums 3000000000 old.now }
    ensures { Raised S.OrderedSums (bound_of S.OrderedSums weights.now edge) old.now new.old new.new }
{
    let by = directed(weights[edge.weight as usize], edge.opposed);
    let asked = old[edge.from as usize].sum(by);
    if !asked.not_after(new[edge.at as usize]) {
        new[edge.at as usize] = asked;
    }
}

// Whether no new time is after the old one.
fn settled<S: OrderedSums>(old: &[S], new: &[S]) -> bool
    requires { length new.now ≡ length old.now }
    ensures { Compared S.OrderedSums (length old.now) (times_of S.OrderedSums old.now) (times_of S.OrderedSums new.now) result }
{
    old.iter()
        .zip(new)
        .all(|(before, after)| after.not_after(*before))
}

impl<S: OrderedSums> System<'_, '_, S> {
    // The new times: what the bounds ask of the old times, or the old times where those are later.
    fn raise_all(&self, old: &[S], new: &mut [S])
        requires rows { (length old.now ≡ self.now.devices + 1) × (length new.old ≡ self.now.devices + 1) }
        requires small { Small S.OrderedSums 3000000000 old.now }
        ensures { Round S.OrderedSums (bounds S.OrderedSums self.now.weights.now self.now.edges.now) (times_of S.OrderedSums old.now) (times_of S.OrderedSums new.new) }
    {
        new.copy_from_slice(old);
        for edge in self.edges {
            raise(*edge, self.weights, old, new);
        }
    }

    // Looks for the least times that meet the bounds and put no device before `start`, and leaves them in `times`, the origin's
    // last. An error says that no times do, and from a low start that no times anywhere meet the bounds. The two rows are lent one by
    // one, as a struct around them would carry the same lengths.
    pub fn least_times(&self, start: S, times: &mut [S], spare: &mut [S]) -> Result<(), Unmet>
        requires rows { (length times.old ≡ self.now.devices + 1) × (length spare.old ≡ self.now.devices + 1) }
        requires size { S.OrderedSums.size (S.OrderedSums.means start) ≤ 2000000000 }
        ensures { Searched S.OrderedSums self.now.devices (bounds S.OrderedSums self.now.weights.now self.now.edges.now) (S.OrderedSums.means start) (times_of S.OrderedSums times.new) result }
    {
        begin(self.devices, start, times);
        for _round in 0..self.devices + 2 {
            self.raise_all(times, spare);
            if settled(times, spare) {
                return Ok(());
            }
            if !spare[self.devices].not_after(S::zero()) {
                return Err(Unmet);
            }
            times.copy_from_slice(spare);
        }
        Err(Unmet)
    }
}
