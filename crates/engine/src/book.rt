ghost use Rattle.std.specs.Prelude.{◌≡◌, ◌≤◌, true, replicate, None, MatchResult};
ghost use Rattle.lines.specs.Asking.{Writes};
ghost use Rattle.engine.specs.Books.{devices_of, records_of, sheet_of};
ghost use Rattle.engine.specs.declared.refusal.Refusal.TheVariants.{Devices};
ghost use Rattle.engine.specs.Checks.{Granted, Refused, begin_checks, enter_checks};
ghost use Rattle.engine.specs.Records.{Entered, Struck};
ghost use Rattle.tables.specs.Tables.{proper};

use crate::refusal::Refusal;
use lines::{Asked, Line, Operator};
use scales::Scale;
use std::marker::PhantomData;
use tables::Table;

// A book of timing lines for the devices of an organ, on one scale.
#[derive(Drop)]
pub struct Book<S: Scale> {
    pub(crate) table: Table,
    scale: PhantomData<S>,
}

impl<S: Scale> Book<S> {
    // A book of so many devices, with no line.
    pub fn begin(devices: u8) -> Result<Book<S>, Refusal>
        ensures begins { MatchResult result (λ b. (1 ≤ devices) × (devices ≤ 200) × (devices_of b ≡ devices) × (records_of b ≡ replicate 400 None)) (λ e. (e ≡ Devices) × ((1 ≤ devices) → (devices ≤ 200) → ⊥)) }
        ensures checks { MatchResult result (λ _. Granted (begin_checks devices)) (Refused (begin_checks devices)) }
    {
        if devices < 1 || devices > 200 {
            return Err(Refusal::Devices);
        }
        Ok(Book {
            table: Table::new(devices),
            scale: PhantomData,
        })
    }

    pub fn devices(&self) -> u8
        ensures { result ≡ devices_of self.now }
    {
        self.table.devices()
    }

    // The line to be entered, or the first refusal that applies. Three of the checks are those of `follows`, amid others: in one list they are
    // read beside the list that is promised.
    fn judge(&self, number: u16, asked: Asked) -> Result<Line, Refusal>
        ensures { MatchResult result (λ l. Granted (enter_checks (devices_of self.now) (sheet_of self.now) number asked) × Writes asked l × (proper (devices_of self.now) l ≡ true)) (Refused (enter_checks (devices_of self.now) (sheet_of self.now) number asked)) }
    {
        if number > 399 {
            return Err(Refusal::LineNumber);
        }
        let op = Operator::try_from(asked.op)?;
        if asked.is_foreign(self.table.devices()) {
            return Err(Refusal::DeviceNumber);
        }
        if asked.is_outside() {
            return Err(Refusal::Constant);
        }
        if asked.sets_itself(op) {
            return Err(Refusal::Itself);
        }
        if self.table.line(number as usize).is_some() {
            return Err(Refusal::Taken);
        }
        Ok(asked.line(op))
    }

    // Puts the line that is asked for under the number.
    pub fn enter(&mut self, number: u16, asked: Asked) -> Result<(), Refusal>
        ensures devices { devices_of self.new ≡ devices_of self.old }
        ensures entered { Entered (devices_of self.old) (records_of self.old) number asked result (records_of self.new) }
    {
        let line = self.judge(number, asked)?;
        self.table.put(number as usize, Some(line));
        Ok(())
    }

    // Removes the line under the number, which is then free again.
    pub fn strike(&mut self, number: u16) -> Result<(), Refusal>
        ensures devices { devices_of self.new ≡ devices_of self.old }
        ensures struck { Struck (records_of self.old) number result (records_of self.new) }
    {
        if number > 399 {
            return Err(Refusal::LineNumber);
        }
        if self.table.line(number as usize).is_none() {
            return Err(Refusal::Free);
        }
        self.table.put(number as usize, None);
        Ok(())
    }
}
