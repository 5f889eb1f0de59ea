ghost use Rattle.std.specs.Prelude.{IfOk};
ghost use Rattle.console.specs.Transcripts.{Read, Transcript};

use printing::closing_line;
use session::{Fault, Unopened};
use std::alloc::{AllocError, Global};

// Reads a whole session, whichever bytes it holds, up to its end or to a fault.
fn read(bytes: &[u8]) -> Result<(), Fault>
    ensures { Read bytes.now result }
{
    let commands = Unopened::new(bytes).open()?;
    commands.end()
}

// All that a session prints. Fails only for want of memory.
pub fn transcript(heap: Global, bytes: &[u8]) -> Result<Vec<u8>, AllocError>
    ensures { IfOk result (λ out. Transcript bytes.now out.items) }
{
    let line = closing_line(read(bytes).err());
    Vec::from_slice(heap, line.as_slice())
}
