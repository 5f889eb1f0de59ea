// A session run from its text, and held to the lines that are due.
ghost use Rattle.std.specs.Prelude.{◌≡◌, ℕ, List, ◌++◌, IfOk, MatchOption, OnOk};
ghost use Rattle.sheets.specs.Hex.{Illegible};
ghost use Rattle.sheets.specs.Reports.{Judged, Reported};

use crate::hex::decode;
use answering::transcript;
use std::alloc::{AllocError, Global};

// Adds whether the printed lines are those that are due, and if not, those.
fn judge(out: &mut Vec<u8>, printed: &[u8], due: &[u8]) -> Result<(), AllocError>
    ensures { OnOk result (((more : List ℕ) × Judged printed.now due.now more × (out.new.items ≡ out.old.items ++ more))) }
{
    if printed == due {
        return out.extend_from_slice(b"as due\n");
    }
    out.extend_from_slice(b"due:\n")?;
    out.extend_from_slice(due)
}

// The session's name, what it prints, and whether that is due; nothing where the text is not hexadecimal.
pub fn report(
    heap: Global,
    name: &[u8],
    text: &[u8],
    due: &[u8],
) -> Result<Option<Vec<u8>>, AllocError>
    ensures { IfOk result (λ o. MatchOption o (Illegible text.now) (λ out. Reported name.now text.now due.now out.items)) }
{
    let Some(session) = decode(heap, text)? else {
        return Ok(None);
    };
    let printed = transcript(heap, session.as_slice())?;
    let mut out = Vec::from_slice(heap, b"sheet ")?;
    out.extend_from_slice(name)?;
    out.extend_from_slice(b"\n")?;
    out.extend_from_slice(printed.as_slice())?;
    judge(&mut out, printed.as_slice(), due)?;
    Ok(Some(out))
}
