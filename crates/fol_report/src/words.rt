//! Words after words: each is put after a space.

ghost use Rattle.std.specs.Prelude.{◌≡◌, ◌+◌, ◌≤◌, ◌++◌, ◌∷◌, length, IfOk, string_bytes};
ghost use Rattle.fol_model.specs.ReportWords.{block_words, chunk_words};
ghost use Rattle.fol_report.specs.Spaced.{spaced};

use crate::tail::Tail;
use fol_model::{BlockPos, ChunkPos};
use itoa::{Buffer, Integer};
use std::alloc::AllocError;

/// Puts a space and a word.
pub fn put_word(out: &mut String, word: &str) -> Result<(), AllocError>
    ensures { IfOk result (λ _. string_bytes out.new ≡ string_bytes out.old ++ 32 ∷ word.now) }
{
    out.push_str(" ")?;
    out.push_str(word)?;
    Ok(())
}

/// Puts a space and a number.
pub fn put_number<I: Integer>(out: &mut String, number: I) -> Result<(), AllocError>
    ensures { IfOk result (λ _. string_bytes out.new ≡ string_bytes out.old ++ 32 ∷ I.text number) }
{
    let mut buffer = Buffer::new();
    put_word(out, buffer.format(number))
}

/// Puts the coordinates of a chunk in front of a text.
#[inline]
pub fn push_chunk(line: &mut Tail, at: ChunkPos)
    requires { length line.old + 24 ≤ 80 }
    ensures text { line.new ≡ spaced (chunk_words at) ++ line.old }
    ensures len { length line.new ≤ length line.old + 24 }
{
    line.push_signed(at.z);
    line.push_word(b" ");
    line.push_signed(at.x);
    line.push_word(b" ");
}

/// Puts the coordinates of a block in front of a text.
#[inline]
pub fn push_block(line: &mut Tail, at: BlockPos)
    requires { length line.old + 36 ≤ 80 }
    ensures text { line.new ≡ spaced (block_words at) ++ line.old }
    ensures len { length line.new ≤ length line.old + 36 }
{
    line.push_signed(at.z);
    line.push_word(b" ");
    line.push_signed(at.y);
    line.push_word(b" ");
    line.push_signed(at.x);
    line.push_word(b" ");
}

/// Puts the coordinates of a block.
pub fn put_block(out: &mut String, at: BlockPos) -> Result<(), AllocError>
    ensures { IfOk result (λ _. string_bytes out.new
        ≡ string_bytes out.old ++ spaced (block_words at)) }
{
    let mut words = Tail::new();
    push_block(&mut words, at);
    words.put(out)
}
