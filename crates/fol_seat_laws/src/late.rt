//! Begins that are recorded late. A worker takes a tick without a turn of the lock, and whoever learns of it first records its Begin. Here
//! is what the worker is at then, as its seat can tell from what it has seen, `seen`, and what it recorded behind that, `rest`.

ghost use Rattle.fol_seat_laws.specs.Late.{DeedsGoOn, LateTurn, StaysIdle, StaysInTick, WholeTicksLeaveNoneOpen};

/// A worker whose entries are whole ticks has no tick open.
pub fn whole_ticks_leave_none_open()
    ensures { WholeTicksLeaveNoneOpen }
{}

/// A worker that was at nothing is still at nothing, where its seat recorded at most Begins since and the worker has no tick open: so
/// nobody recorded a Begin of it.
pub fn stays_idle()
    ensures { StaysIdle }
{}

/// A worker that was at nothing, and has a tick open now, is at the begin of that tick, where its seat recorded at most Begins since. It
/// has to ask for the loads and unloads of the due tasks that the tick was made with, whoever recorded its Begin and however late.
pub fn late_turn()
    ensures { LateTurn }
{}

/// A worker that was in a tick is still where it was in it, where its seat recorded at most Begins since: none of them is of this worker.
pub fn stays_in_tick()
    ensures { StaysInTick }
{}

/// A worker that was in a tick has gone on in it by what its seat recorded since, as if its Begins were left out.
pub fn deeds_go_on()
    ensures { DeedsGoOn }
{}
