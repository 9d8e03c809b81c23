//! A tick that is computed apart from the world.

ghost use Rattle.fol_laws.specs.DetachedTick.{TickReadsItsChunks, TickChangesItsChunks, TickIsDetached};

/// Two worlds that agree on the recorded chunks have the same tick: outcomes, wishes, and what stands there after it.
pub fn tick_reads_its_chunks()
    ensures { TickReadsItsChunks }
{}

/// A tick changes no block outside the recorded chunks, and no entity that stands outside them and does not arrive.
pub fn tick_changes_its_chunks()
    ensures { TickChangesItsChunks }
{}

/// The tick on the world at the Begin is the tick on the world at the End.
pub fn tick_is_detached()
    ensures { TickIsDetached }
{}
