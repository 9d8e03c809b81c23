//! The summary of a made game.

ghost use Rattle.std.specs.Prelude.{◌≡◌, [], ◌∷◌, ◌++◌, sum_by, IfOk, string_bytes};
ghost use Rattle.fol_model.specs.Summary.{summary_text};
ghost use Rattle.fol_report.specs.Tallies.{CountsEvents};

use crate::words::put_number;
use fol_model::{Accept, BlockAt, Closing, EventRef, Loaded, PackedEntry};
use itoa::Integer;
use std::alloc::{AllocError, Global};

/// What is counted of the events of a history.
#[derive(Clone, Copy)]
struct Tally {
    /// Loads that were counted.
    loads: u64,
    /// Posts that were accepted.
    posts: u64,
    /// Ends of ticks.
    ticks: u64,
    /// Tasks that ran in all ticks.
    ran: u128,
}

/// The counts of a history.
fn count_events(history: &[PackedEntry]) -> Tally
    ensures { CountsEvents history.now result }
{
    let mut tally = Tally {
        loads: 0,
        posts: 0,
        ticks: 0,
        ran: 0,
    };
    for entry in history {
        match entry.event() {
            EventRef::Load {
                answer: Loaded::Counted,
                ..
            } => tally.loads += 1,
            EventRef::Post {
                answer: Accept::Posted(_),
                ..
            } => tally.posts += 1,
            EventRef::End { ran, .. } => {
                tally.ticks += 1;
                tally.ran += ran.len() as u128;
            }
            _ => {}
        }
    }
    tally
}

/// The sum of the block numbers.
fn block_sum(blocks: &[BlockAt]) -> u128
    ensures { result ≡ sum_by (λ b. b.id) blocks.now }
{
    let mut sum = 0;
    for block in blocks {
        sum += u128::from(block.id);
    }
    sum
}

/// Puts a line of a word and a number.
fn put_count<I: Integer>(out: &mut String, word: &str, count: I) -> Result<(), AllocError>
    ensures { IfOk result (λ _. string_bytes out.new ≡ string_bytes out.old ++ word.now
        ++ 32 ∷ (I.text count ++ 10 ∷ [])) }
{
    out.push_str(word)?;
    put_number(out, count)?;
    out.push_str("\n")?;
    Ok(())
}

/// The summary of the closing of a game made of `n` clusters.
pub fn summary(alloc: Global, n: u32, closing: &Closing) -> Result<Vec<u8>, AllocError>
    ensures { IfOk result (λ text. text.items ≡ summary_text n closing.now) }
{
    let tally = count_events(closing.history.as_slice());
    let mut out = String::new(alloc);
    put_count(&mut out, "made", n)?;
    put_count(&mut out, "loads", tally.loads)?;
    put_count(&mut out, "posts", tally.posts)?;
    put_count(&mut out, "ticks", tally.ticks)?;
    put_count(&mut out, "ran", tally.ran)?;
    put_count(&mut out, "regions", closing.regions.len())?;
    put_count(&mut out, "sections", closing.owners.len())?;
    put_count(&mut out, "blocks", closing.blocks.len())?;
    put_count(&mut out, "sum", block_sum(closing.blocks.as_slice()))?;
    out.push_str("end\n")?;
    Ok(out.into_bytes())
}
