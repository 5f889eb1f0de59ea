ghost use Rattle.std.specs.Prelude.{◌≡◌};
ghost use Rattle.engine.specs.Orders.{Ordered};
ghost use Rattle.engine.specs.Refusals.{number_of};
ghost use Rattle.engine.specs.declared.refusal.Refusal.TheVariants.{Clash, OperatorByte};

use bounds::Unmet;
use lines::NoOperator;

// Why a call is not granted.
#[derive(Clone, Copy, Debug, PartialEq, Eq)]
pub enum Refusal {
    // a book is begun with a number of devices outside 1 to 200
    Devices = 2,
    // the operator byte is none of the five
    OperatorByte = 5,
    // a device number is as large as the number of devices, or larger
    DeviceNumber = 6,
    // the constant is outside its limits
    Constant = 7,
    // the line number is above 399
    LineNumber = 8,
    // the line to enter sets a device before or after itself
    Itself = 9,
    // a buffer is shorter than stated
    Buffer = 10,
    // that number already stands
    Taken = 21,
    // that number does not stand
    Free = 22,
    // the standing lines clash
    Clash = 23,
}

impl Refusal {
    // The refusal's number. By these numbers the checks of each call come in the order that is promised: a law for which `From` has no room.
    pub fn number(self) -> u8
        ensures number { result ≡ number_of self }
        ensures ordered { Ordered }
    {
        self as u8
    }
}

impl From<NoOperator> for Refusal {
    ghost from_gives = { λ _ r. r ≡ OperatorByte };

    fn from(_: NoOperator) -> Refusal {
        Refusal::OperatorByte
    }
}

impl From<Unmet> for Refusal {
    ghost from_gives = { λ _ r. r ≡ Clash };

    fn from(_: Unmet) -> Refusal {
        Refusal::Clash
    }
}
