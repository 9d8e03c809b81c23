//! The bytes of the files that a command names.

ghost use Rattle.std.specs.Prelude.{◌≡◌, ◌≤◌, ◌∷◌, [], ℕ, List, IfOk, IfErr, length};
ghost use Rattle.fol_io.specs.Counts.{raised};
ghost use Rattle.fol_io.specs.Shelf.{IsHeld};
ghost use Rattle.fol_top.specs.Inputs.{size_limit};
ghost use Rattle.fol_top.specs.Reading.{ReadEnds, ReadsEnd};

use crate::command::Names;
use crate::ending::Ending;
use fol_io::{Bytes, Read, Shelf};
use std::alloc::Global;

/// How many bytes a file may have.
const SIZE_LIMIT: u64 = 16_777_216;

/// The bytes of a world and of a script.
#[derive(Drop)]
pub(crate) struct Files {
    pub(crate) world: Bytes,
    pub(crate) script: Bytes,
}

/// The bytes of a world, of a script and of a report.
#[derive(Drop)]
pub(crate) struct ReportFiles {
    pub(crate) files: Files,
    pub(crate) report: Bytes,
}

/// Reads both files, the world first, and the script only where the world was read.
pub(crate) fn read_files<F: Shelf>(
    alloc: Global,
    names: Names<'_>,
    shelf: &mut F,
) -> Result<Files, Ending>
    ensures world_held { IfOk result (λ files.
        IsHeld (F.held shelf.old names.entry.world.now) files.world) }
    ensures world_within { IfOk result (λ files. length files.world ≤ size_limit) }
    ensures script_held { IfOk result (λ files.
        IsHeld (F.held shelf.old names.entry.script.now) files.script) }
    ensures script_within { IfOk result (λ files. length files.script ≤ size_limit) }
    ensures ends { IfErr result (ReadsEnd (F.held shelf.old) (F.faults shelf.old)
        (F.faults shelf.new) (F.taken shelf.old) (F.taken shelf.new) (F.reads shelf.old)
        (F.reads shelf.new) (names.entry.world.now ∷ names.entry.script.now ∷ [])) }
    ensures holds_the_same { (n : List ℕ) → F.held shelf.new n ≡ F.held shelf.old n }
    ensures faults_never_fall { (n : List ℕ) → F.faults shelf.old n ≤ F.faults shelf.new n }
    ensures taken_never_falls { F.taken shelf.old ≤ F.taken shelf.new }
    ensures reads_twice { IfOk result (λ files. F.reads shelf.new ≡ raised 2 (F.reads shelf.old)) }
{
    let world = read_file(alloc, names.world, shelf)?;
    let script = read_file(alloc, names.script, shelf)?;
    Ok(Files { world, script })
}

/// Reads the three files, the report last, and only where the world and the script were read.
pub(crate) fn read_report_files<F: Shelf>(
    alloc: Global,
    names: Names<'_>,
    report: &str,
    shelf: &mut F,
) -> Result<ReportFiles, Ending>
    ensures world_held { IfOk result (λ all.
        IsHeld (F.held shelf.old names.entry.world.now) all.files.world) }
    ensures world_within { IfOk result (λ all. length all.files.world ≤ size_limit) }
    ensures script_held { IfOk result (λ all.
        IsHeld (F.held shelf.old names.entry.script.now) all.files.script) }
    ensures script_within { IfOk result (λ all. length all.files.script ≤ size_limit) }
    ensures report_held { IfOk result (λ all. IsHeld (F.held shelf.old report.now) all.report) }
    ensures report_within { IfOk result (λ all. length all.report ≤ size_limit) }
    ensures ends { IfErr result (ReadsEnd (F.held shelf.old) (F.faults shelf.old)
        (F.faults shelf.new) (F.taken shelf.old) (F.taken shelf.new) (F.reads shelf.old)
        (F.reads shelf.new) (names.entry.world.now ∷ names.entry.script.now ∷ report.now ∷ [])) }
{
    let files = read_files(alloc, names, shelf)?;
    let report = read_file(alloc, report, shelf)?;
    Ok(ReportFiles { files, report })
}

/// Reads one file.
fn read_file<F: Shelf>(alloc: Global, name: &str, shelf: &mut F) -> Result<Bytes, Ending>
    ensures held { IfOk result (λ bytes. IsHeld (F.held shelf.old name.now) bytes) }
    ensures within { IfOk result (λ bytes. length bytes ≤ size_limit) }
    ensures ends { IfErr result (ReadEnds (F.held shelf.old name.now) (F.faults shelf.old name.now)
        (F.faults shelf.new name.now) (F.taken shelf.old) (F.taken shelf.new)) }
    ensures holds_the_same { (n : List ℕ) → F.held shelf.new n ≡ F.held shelf.old n }
    ensures faults_never_fall { (n : List ℕ) → F.faults shelf.old n ≤ F.faults shelf.new n }
    ensures taken_never_falls { F.taken shelf.old ≤ F.taken shelf.new }
    ensures reads_once { F.reads shelf.new ≡ raised 1 (F.reads shelf.old) }
{
    match shelf.read_whole(alloc, name, SIZE_LIMIT) {
        Read::Whole(bytes) => Ok(bytes),
        Read::Failed => Err(Ending::ReadFault),
        Read::TooLong => Err(Ending::TooLong),
        Read::NoMemory => Err(Ending::NoMemory),
    }
}
