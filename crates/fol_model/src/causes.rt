//! What can be wrong with a line of a text.

/// Why a line is the first bad line of a text. Where several hold, the first of this list is told.
#[derive(Clone, Copy, Debug, PartialEq, Eq)]
pub enum Cause {
    /// A byte is not printable, the line begins or ends with a space, or two spaces follow each other.
    Text,
    /// The first word is no line word of this text, or a word in the place of an action word is no action word.
    Word,
    /// The line may not stand here.
    Order,
    /// The line has fewer or more words than its form.
    Count,
    /// The words `post` and `every` stand more than eight times in the line.
    Nest,
    /// A word in the place of a number is no number.
    Number,
    /// A number is outside its range.
    Range,
    /// The block or the entity stood in an earlier line.
    Twice,
    /// All ticks, or all counts, together exceed their limit.
    Total,
    /// The text ends too early.
    Missing,
}
