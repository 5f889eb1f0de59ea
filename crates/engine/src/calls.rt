ghost use Rattle.engine.specs.Books.{devices_of, sheet_of};
ghost use Rattle.engine.specs.Calls.{FollowsAs, Settles, Windows};
ghost use Rattle.std.specs.Prelude.{length};

use crate::book::Book;
use crate::refusal::Refusal;
use lines::{Asked, Operator};
use scales::Scale;
use verdicts::{Followed, Settled};

// The least lengths of the buffers for names and for work. A book's calls are lent all memory that they use.
const NAMES: usize = 400;

const WORK: usize = 1000;

impl<S: Scale> Book<S> {
    // The first timetable of the standing lines, or some of them that quarrel, with none too many.
    pub fn settle(
        &self,
        times: &mut [S],
        names: &mut [u16],
        work: &mut [S],
    ) -> Result<Settled, Refusal>
        ensures { Settles S.OrderedSums (devices_of self.now) (sheet_of self.now) (length work.old) times.old names.old result times.new names.new }
    {
        let devices = self.table.devices() as usize;
        if times.len() < devices || names.len() < NAMES || work.len() < WORK {
            return Err(Refusal::Buffer);
        }
        Ok(verdicts::settle(&self.table, times, names, work))
    }

    // The earliest and the latest time that any timetable keeping the standing lines gives a device, each absent where there is
    // no such time.
    pub fn window(&self, device: u8, work: &mut [S]) -> Result<(Option<S>, Option<S>), Refusal>
        ensures { Windows S.OrderedSums (devices_of self.now) (sheet_of self.now) device (length work.old) result }
    {
        if device >= self.table.devices() {
            return Err(Refusal::DeviceNumber);
        }
        if work.len() < WORK {
            return Err(Refusal::Buffer);
        }
        Ok(verdicts::window(&self.table, device, work)?)
    }

    // Whether every timetable that keeps the standing lines keeps the line that is asked for. If not, the first timetable of the
    // standing lines and the line's opposite is shown.
    pub fn follows(
        &self,
        asked: Asked,
        times: &mut [S],
        work: &mut [S],
    ) -> Result<Followed, Refusal>
        ensures { FollowsAs S.OrderedSums (devices_of self.now) (sheet_of self.now) asked (length work.old) times.old result times.new }
    {
        let op = Operator::try_from(asked.op)?;
        let devices = self.table.devices();
        if asked.is_foreign(devices) {
            return Err(Refusal::DeviceNumber);
        }
        if asked.is_outside() {
            return Err(Refusal::Constant);
        }
        if times.len() < devices as usize || work.len() < WORK {
            return Err(Refusal::Buffer);
        }
        Ok(verdicts::follows(&self.table, asked.line(op), times, work))
    }
}
