ghost use Rattle.std.specs.Prelude.{◌≡◌};
ghost use Rattle.answering.specs.declared.stop.Stop.TheVariants.{Exhausted, Faulted};

use session::Fault;
use std::alloc::AllocError;

// Why a session is answered no further: a fault, or want of memory.
#[derive(Drop)]
pub(crate) enum Stop {
    Faulted(Fault),
    Exhausted(AllocError),
}

impl From<Fault> for Stop {
    ghost from_gives = { λ fault r. r ≡ Faulted fault };

    fn from(fault: Fault) -> Stop {
        Stop::Faulted(fault)
    }
}

impl From<AllocError> for Stop {
    ghost from_gives = { λ error r. r ≡ Exhausted error };

    fn from(error: AllocError) -> Stop {
        Stop::Exhausted(error)
    }
}
