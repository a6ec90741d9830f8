// A header and lines, as one text.
ghost use Rattle.std.specs.Prelude.{◌≡◌, ℕ, List, IfOk, string_bytes};
ghost use Rattle.console.specs.Sheets.{sheet_text, Shown};

use std::alloc::{AllocError, Global};
use std::fmt::Display;

// The header and the lines below it, each with its line end, as one text. It fails only for want of
// memory.
pub fn write_sheet<T: Display>(
    heap: Global,
    header: &str,
    lines: &[T],
) -> Result<String, AllocError>
    ensures { IfOk result (λ text. ((show : T → List ℕ) → Shown T.Display.output show → string_bytes text ≡ sheet_text show header.now lines.now)) }
{
    let mut text = format!(in heap; "{header}\n")?;
    for line in lines {
        writeln!(text, "{line}")?;
    }
    Ok(text)
}
