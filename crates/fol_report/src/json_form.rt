//! The report as JSON.

ghost use Rattle.std.specs.Prelude.{◌≡◌, ◌++◌, ◌∷◌, [], IfOk, string_bytes};
ghost use Rattle.serde_json.specs.Written.{compact_text};
ghost use Rattle.fol_model.specs.JsonReport.{json_text, quoted_lines};
ghost use Rattle.fol_report.specs.JsonData.{report_data};

use crate::lines::{Line, put_lines};
use fol_model::Closing;
use std::alloc::{AllocError, Global};

/// Puts the lines of the rows, each in quotes, with commas between.
fn put_quoted<R: Line>(out: &mut String, rows: &[R]) -> Result<(), AllocError>
    ensures { IfOk result (λ _. string_bytes out.new
        ≡ string_bytes out.old ++ quoted_lines R.words rows.now) }
{
    let Some((last, others)) = rows.split_last() else {
        return Ok(());
    };
    out.push_str("\"")?;
    put_lines(out, others, "\",\"")?;
    last.put(out)?;
    out.push_str("\"")
}

/// The report of a closing as JSON, on one line with its end.
fn put_report(alloc: Global, closing: &Closing) -> Result<String, AllocError>
    ensures { IfOk result (λ text. string_bytes text ≡ json_text closing.now) }
{
    let mut out = String::new(alloc);
    out.push_str("{\"blocks\":[")?;
    put_quoted(&mut out, closing.blocks.as_slice())?;
    out.push_str("],\"entities\":[")?;
    put_quoted(&mut out, closing.entities.as_slice())?;
    out.push_str("],\"events\":[")?;
    put_quoted(&mut out, closing.history.as_slice())?;
    out.push_str("],\"owners\":[")?;
    put_quoted(&mut out, closing.owners.as_slice())?;
    out.push_str("],\"regions\":[")?;
    put_quoted(&mut out, closing.regions.as_slice())?;
    out.push_str("],\"report\":1,\"tasks\":[")?;
    put_quoted(&mut out, closing.tasks.as_slice())?;
    out.push_str("]}\n")?;
    Ok(out)
}

/// The report of a closing as JSON, on one line with its end. It is the compact text of a JSON value, though none is made: no line has a
/// byte that JSON escapes.
#[tactic(auto, using(crate::proofs::JsonText::json_text_of))]
pub fn report_json(alloc: Global, closing: &Closing) -> Result<Vec<u8>, AllocError>
    ensures text { IfOk result (λ text. text.items ≡ json_text closing.now) }
    ensures value { IfOk result (λ text. text.items
        ≡ compact_text (report_data closing.now) ++ 10 ∷ []) }
{
    let text = put_report(alloc, closing)?;
    Ok(text.into_bytes())
}
