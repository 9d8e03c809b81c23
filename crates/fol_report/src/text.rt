//! The report as text.

ghost use Rattle.std.specs.Prelude.{◌≡◌, ◌++◌, IfOk, string_bytes};
ghost use Rattle.fol_model.specs.Report.{report_text};
ghost use Rattle.fol_report.specs.Shares.{foot_text, head_text};

use crate::history::put_entries;
use crate::lines::put_part;
use fol_model::Closing;
use std::alloc::{AllocError, Global};

/// The report of a closing as text, each line with its end.
pub fn report(alloc: Global, closing: &Closing) -> Result<Vec<u8>, AllocError>
    ensures { IfOk result (λ text. text.items ≡ report_text closing.now) }
{
    let mut out = head(alloc, closing)?;
    put_entries(&mut out, closing.history.as_slice())?;
    put_foot(&mut out, closing)?;
    Ok(out.into_bytes())
}

/// What stands before the lines of the history.
pub(crate) fn head(alloc: Global, closing: &Closing) -> Result<String, AllocError>
    ensures { IfOk result (λ text. string_bytes text ≡ head_text closing.now) }
{
    let mut out = String::new(alloc);
    let count = closing.history.len();
    out.push_str("report 1\n")?;
    write!(out, "events {count}\n")?;
    Ok(out)
}

/// Puts what stands behind the lines of the history.
fn put_foot(out: &mut String, closing: &Closing) -> Result<(), AllocError>
    ensures { IfOk result (λ _. string_bytes out.new
        ≡ string_bytes out.old ++ foot_text closing.now) }
{
    put_part(out, "regions", closing.regions.as_slice())?;
    put_part(out, "owners", closing.owners.as_slice())?;
    put_part(out, "tasks", closing.tasks.as_slice())?;
    put_part(out, "entities", closing.entities.as_slice())?;
    put_part(out, "blocks", closing.blocks.as_slice())?;
    out.push_str("end\n")
}

/// What stands behind the lines of the history.
pub fn foot(alloc: Global, closing: &Closing) -> Result<Vec<u8>, AllocError>
    ensures { IfOk result (λ text. text.items ≡ foot_text closing.now) }
{
    let mut out = String::new(alloc);
    put_foot(&mut out, closing)?;
    Ok(out.into_bytes())
}
