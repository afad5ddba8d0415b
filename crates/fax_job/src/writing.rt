//! Key lines as text.

ghost use Rattle.std.specs.Prelude.{◌≡◌, ◌++◌, IfOk, OnOk};
ghost use Rattle.fax_job.specs.Pair.{ArePairs};
ghost use Rattle.fax_job.specs.Spelling.{escaped, printed_pair, printed};

use crate::line_text::Line;
use crate::lines::Lines;
use std::alloc::{AllocError, Global};

/// The printed spelling: for each line its tag, `:`, its value and LF, with `\` before an LF of a
/// status.
#[tactic(auto, using(crate::proofs::ListLemmas::printed_next))]
pub fn write_lines(alloc: Global, lines: &Lines) -> Result<Vec<u8>, AllocError>
    ensures printed { IfOk result (λ text. text.items ≡ printed lines.now) }
    ensures lawful { ArePairs lines.now }
{
    let mut out = Vec::new(alloc);
    let text = lines.as_text();
    for index in 0..text.len() {
        write_line(&mut out, &text.line(index))?;
    }
    Ok(out)
}

fn write_line(out: &mut Vec<u8>, line: &Line) -> Result<(), AllocError>
    ensures { OnOk result (out.new.items ≡ out.old.items ++ printed_pair line.now) }
{
    out.extend_from_slice(line.tag().as_bytes())?;
    out.push(b':')?;
    write_value(out, line.value().as_bytes())?;
    out.push(b'\n')?;
    Ok(())
}

fn write_value(out: &mut Vec<u8>, value: &[u8]) -> Result<(), AllocError>
    ensures { OnOk result (out.new.items ≡ out.old.items ++ escaped value.now) }
{
    for byte in value {
        if *byte == b'\n' {
            out.push(b'\\')?;
        }
        out.push(*byte)?;
    }
    Ok(())
}
