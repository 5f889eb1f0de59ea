ghost use Rattle.std.specs.Prelude.{◌≡◌, ◌+◌, ◌<◌, ◌≤◌, length};
ghost use Rattle.scales.specs.Low.{Low};
ghost use Rattle.bounds.specs.Bounds.{bounds, largest};
ghost use Rattle.bounds.specs.Ends.{LeastEnd};

use crate::system::{System, Unmet};
use scales::OrderedSums;

impl<S: OrderedSums> System<'_, '_, S> {
    // The least time that any times meeting the bounds give a device, if there is a least one. The start must be low: a device
    // that the bounds do not hold stays near it, and one that they hold comes far above it.
    pub fn least_end(
        &self,
        start: S,
        device: usize,
        times: &mut [S],
        spare: &mut [S],
    ) -> Result<Option<S>, Unmet>
        requires rows { (length times.old ≡ self.now.devices + 1) × (length spare.old ≡ self.now.devices + 1) }
        requires size { S.OrderedSums.size (S.OrderedSums.means start) ≤ 2000000000 }
        requires low { Low S.OrderedSums largest 406 (S.OrderedSums.means start) }
        requires within { device < self.now.devices }
        ensures { LeastEnd S.OrderedSums self.now.devices (bounds S.OrderedSums self.now.weights.now self.now.edges.now) device result }
    {
        let Ok(()) = self.least_times(start, times, spare) else {
            return Err(Unmet);
        };
        let time = times[device];
        if held_by_start(time, start) {
            return Ok(None);
        }
        Ok(Some(time))
    }
}

// Whether a least time from a low start is held by the start, and not by the bounds: whether it lies nearer to the
// start than to zero.
fn held_by_start<S: OrderedSums>(time: S, start: S) -> bool
    requires { S.OrderedSums.size (S.OrderedSums.means time) ≤ 3000000000 }
    ensures { result ≡ S.OrderedSums.notafter (S.OrderedSums.plus (S.OrderedSums.means time) (S.OrderedSums.means time)) (S.OrderedSums.means start) }
{
    time.sum(time).not_after(start)
}
