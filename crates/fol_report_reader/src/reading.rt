//! A whole report.

ghost use Rattle.std.specs.Prelude.{◌≡◌, ◌≤◌, codes, IfOk, IfErr, OnOk, MatchResult, Ok, Err};
ghost use Rattle.fol_model.specs.Report.{report_text};
ghost use Rattle.fol_report_reader.specs.Parts.{OnLine};
ghost use Rattle.fol_report_reader.specs.Reports.{IsBadFoot, IsBadFromBlocks, IsBadFromEntities, IsBadFromEvents, IsBadFromOwners, IsBadFromRegions, IsBadFromTasks, IsBadLine, blocks_on, entities_on, events_on, further, owners_on, regions_on, tasks_on};

use crate::parts::{Fault, read_part};
use fol_events::{behind_head, is_word};
use fol_model::{
    BlockAt, Closing, EntityRow, Opening, OwnerRow, PackedEntry, RegionRow, Sequence, TaskRow,
};
use std::alloc::Global;

/// What stands behind the part of blocks is the last line alone.
fn read_foot(text: &[u8]) -> Result<(), Fault>
    ensures found { OnOk result (text.now ≡ codes "end\n") }
    ensures bad { IfErr result (λ e. OnLine e (λ l. IsBadFoot text.now l)) }
    ensures small { IfErr result (λ e. OnLine e (λ l. l ≤ 1)) }
{
    if is_word(text, b"end\n") {
        Ok(())
    } else {
        Err(Fault::Line(1))
    }
}

/// What was read behind so many rows and their count; a line at fault is counted from that count on.
fn behind<T: Drop>(rows: usize, read: Result<T, Fault>) -> Result<T, Fault>
    requires few { rows ≤ 16777216 }
    requires small { IfErr read (λ e. OnLine e (λ l. l ≤ 1000000000)) }
    ensures { MatchResult read (λ x. result ≡ Ok x) (λ e. result ≡ Err (further rows e)) }
{
    match read {
        Ok(read) => Ok(read),
        Err(Fault::Line(line)) => Err(Fault::Line(rows as u64 + 1 + line)),
        Err(Fault::NoMemory) => Err(Fault::NoMemory),
    }
}

/// The blocks, with the last line behind them.
fn read_blocks(alloc: Global, text: &[u8]) -> Result<Sequence<BlockAt>, Fault>
    ensures found { IfOk result (λ r. text.now ≡ blocks_on r) }
    ensures bad { IfErr result (λ e. OnLine e (λ l. IsBadFromBlocks text.now l)) }
    ensures small { IfErr result (λ e. OnLine e (λ l. l ≤ 16777219)) }
{
    let (blocks, rest) = read_part(alloc, b"blocks", text)?;
    behind(blocks.len(), read_foot(rest))?;
    Ok(blocks)
}

/// What a report has from its entities on.
type FromEntities = (Sequence<EntityRow>, Sequence<BlockAt>);

/// The entities and what stands behind them.
fn read_entities(alloc: Global, text: &[u8]) -> Result<FromEntities, Fault>
    ensures found { IfOk result (λ r. text.now ≡ entities_on r) }
    ensures bad { IfErr result (λ e. OnLine e (λ l. IsBadFromEntities text.now l)) }
    ensures small { IfErr result (λ e. OnLine e (λ l. l ≤ 33554437)) }
{
    let (entities, rest) = read_part(alloc, b"entities", text)?;
    let more = behind(entities.len(), read_blocks(alloc, rest))?;
    Ok((entities, more))
}

/// What a report has from its tasks on.
type FromTasks = (Sequence<TaskRow>, FromEntities);

/// The tasks and what stands behind them.
fn read_tasks(alloc: Global, text: &[u8]) -> Result<FromTasks, Fault>
    ensures found { IfOk result (λ r. text.now ≡ tasks_on r) }
    ensures bad { IfErr result (λ e. OnLine e (λ l. IsBadFromTasks text.now l)) }
    ensures small { IfErr result (λ e. OnLine e (λ l. l ≤ 50331655)) }
{
    let (tasks, rest) = read_part(alloc, b"tasks", text)?;
    let more = behind(tasks.len(), read_entities(alloc, rest))?;
    Ok((tasks, more))
}

/// What a report has from its owners on.
type FromOwners = (Sequence<OwnerRow>, FromTasks);

/// The owners of sections and what stands behind them.
fn read_owners(alloc: Global, text: &[u8]) -> Result<FromOwners, Fault>
    ensures found { IfOk result (λ r. text.now ≡ owners_on r) }
    ensures bad { IfErr result (λ e. OnLine e (λ l. IsBadFromOwners text.now l)) }
    ensures small { IfErr result (λ e. OnLine e (λ l. l ≤ 67108873)) }
{
    let (owners, rest) = read_part(alloc, b"owners", text)?;
    let more = behind(owners.len(), read_tasks(alloc, rest))?;
    Ok((owners, more))
}

/// What a report has from its regions on.
type FromRegions = (Sequence<RegionRow>, FromOwners);

/// The regions and what stands behind them.
fn read_regions(alloc: Global, text: &[u8]) -> Result<FromRegions, Fault>
    ensures found { IfOk result (λ r. text.now ≡ regions_on r) }
    ensures bad { IfErr result (λ e. OnLine e (λ l. IsBadFromRegions text.now l)) }
    ensures small { IfErr result (λ e. OnLine e (λ l. l ≤ 83886091)) }
{
    let (regions, rest) = read_part(alloc, b"regions", text)?;
    let more = behind(regions.len(), read_owners(alloc, rest))?;
    Ok((regions, more))
}

/// What a report has from its events on.
type FromEvents = (Sequence<PackedEntry>, FromRegions);

/// The events and what stands behind them.
fn read_events(alloc: Global, text: &[u8]) -> Result<FromEvents, Fault>
    ensures found { IfOk result (λ r. text.now ≡ events_on r) }
    ensures bad { IfErr result (λ e. OnLine e (λ l. IsBadFromEvents text.now l)) }
    ensures small { IfErr result (λ e. OnLine e (λ l. l ≤ 100663309)) }
{
    let (events, rest) = read_part(alloc, b"events", text)?;
    let more = behind(events.len(), read_regions(alloc, rest))?;
    Ok((events, more))
}

/// The closing whose report the bytes are, over this opening, or the first line that is not as it must be in a report.
///
/// A report does not tell its opening, the seats of its entries and the speeds of entities on their way: the entries have the number 0 of a seat, and
/// such speeds are 0.
pub fn read_report(alloc: Global, opening: Opening, bytes: &[u8]) -> Result<Closing, Fault>
    ensures opening { IfOk result (λ c. c.opening ≡ opening) }
    ensures report { IfOk result (λ c. bytes.now ≡ report_text c) }
    ensures bad { IfErr result (λ e. OnLine e (λ l. IsBadLine bytes.now l)) }
{
    let Ok(text) = behind_head(bytes) else {
        return Err(Fault::Line(1));
    };
    let (history, (regions, (owners, (tasks, (entities, blocks))))) = behind(
        0,
        read_events(alloc, text),
    )?;
    Ok(Closing {
        opening,
        history,
        regions,
        owners,
        tasks,
        entities,
        blocks,
    })
}
