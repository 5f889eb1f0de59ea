// Bytes written in hexadecimal: two digits, and a space or a newline behind them, for each byte.
ghost use Rattle.std.specs.Prelude.{ℕ, IfOk, MatchOption};
ghost use Rattle.sheets.specs.Hex.{Decoded, Illegible, Spelt, Worth};

use std::alloc::{AllocError, Global};

// What a digit is worth; nothing for any other byte.
fn digit(byte: u8) -> Option<u8>
    ensures { MatchOption result ((v : ℕ) → Worth byte v → ⊥) (λ v. Worth byte v) }
{
    let value = b"0123456789ABCDEF".iter().position(|digit| *digit == byte)?;
    Some(value as u8)
}

// The byte that two digits and what is behind them spell, if they spell one.
fn spelt(triple: &[u8; 3]) -> Option<u8>
    ensures { MatchOption result ((b : ℕ) → Spelt triple.now 0 b → ⊥) (λ b. Spelt triple.now 0 b) }
{
    let [first, second, b' ' | b'\n'] = *triple else {
        return None;
    };
    let high = digit(first)?;
    let low = digit(second)?;
    Some(16 * high + low)
}

// The bytes that a text spells; nothing where it is written otherwise.
pub fn decode(heap: Global, text: &[u8]) -> Result<Option<Vec<u8>>, AllocError>
    ensures { IfOk result (λ o. MatchOption o (Illegible text.now) (λ out. Decoded text.now out.items)) }
{
    let (triples, rest) = text.as_chunks::<3>();
    if !rest.is_empty() {
        return Ok(None);
    }
    let mut out = Vec::new(heap);
    for triple in triples {
        let Some(byte) = spelt(triple) else {
            return Ok(None);
        };
        out.push(byte)?;
    }
    Ok(Some(out))
}
