// The line of a row that was opened.
ghost use Rattle.std.specs.Prelude.{◌≡◌, IfOk};
ghost use Rattle.std.specs.String.{string_bytes};
ghost use Rattle.command_defs.specs.Line.{values_line};

use hail_field::Symbol;
use std::alloc::{AllocError, Global};
use stream_model::{Bytes, Memory};

/// The same as text.
fn line_of(alloc: Global, values: &[Symbol]) -> Result<String, AllocError>
    ensures { IfOk result (λ line. string_bytes line ≡ values_line values.now) }
{
    let mut line = String::new(alloc);
    for k in 0..values.len() {
        if k > 0 {
            line.push(' ')?;
        }
        let symbol = values[k];
        let value = symbol.0;
        let digits = format!(in alloc; "{value}")?;
        line.push_str(&digits)?;
    }
    line.push('\n')?;
    Ok(line)
}

/// The values in decimal, with one space between, and a newline. Want of memory is its one refusal.
pub fn values_line(alloc: Global, values: &[Symbol]) -> Result<Bytes, Memory>
    ensures { IfOk result (λ line. line ≡ values_line values.now) }
{
    let line = line_of(alloc, values)?;
    Ok(Bytes::from_vec(line.into_bytes()))
}
