//! The words of texts, and what stands in the places of a line.

/// Which text a line is of.
#[derive(Clone, Copy, Debug, PartialEq, Eq)]
pub enum TextKind {
    World,
    /// A script of a world of version 1, which has no line `every`.
    ScriptOne,
    /// A script of a world of version 2.
    ScriptTwo,
}

/// A word that has a meaning of its own.
#[derive(Clone, Copy, Debug, PartialEq, Eq)]
pub enum Keyword {
    World,
    Grid,
    Block,
    Entity,
    Load,
    Unload,
    Post,
    Every,
    Run,
    End,
    Set,
    Copy,
    Send,
    /// Stands in reports alone.
    Arrive,
}

/// What may stand in a place of a line behind its first word.
#[derive(Clone, Copy, Debug, PartialEq, Eq)]
pub enum Field {
    /// An action word, behind which its own fields follow.
    Action,
    /// A number of this range.
    Number { low: i64, high: i64 },
}

/// What stands in a place of a line.
#[derive(Clone, Copy, Debug, PartialEq, Eq)]
pub enum Cell {
    Word(Keyword),
    Number(i64),
}

/// What a word in the place of a number is.
#[derive(Clone, Copy, Debug, PartialEq, Eq)]
pub enum Reading {
    /// No spelling of a number.
    NoNumber,
    /// A number outside the range of its place.
    Outside,
    /// This number.
    Is(i64),
}
