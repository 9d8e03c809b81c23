//! The rules of the grid at every point of every history.

ghost use Rattle.fol_laws.specs.RuleLaws.{RulesHold, ReadyMarginHolds, RecordedMarginHolds, TickingStayApart, NoneWaitsAlone, LiveStayFew};

/// The rules of the grid hold after every prefix of a run.
pub fn rules_hold()
    ensures { RulesHold }
{}

/// A Ready region has the margin of its loaded chunks.
pub fn ready_margin_holds()
    ensures { ReadyMarginHolds }
{}

/// A Ticking region has the margin of the chunks that its Begin recorded.
pub fn recorded_margin_holds()
    ensures { RecordedMarginHolds }
{}

/// Two Ticking regions have no sections within the merge radius of each other.
pub fn ticking_stay_apart()
    ensures { TickingStayApart }
{}

/// Where no region is Ticking, none is Transient.
pub fn none_waits_alone()
    ensures { NoneWaitsAlone }
{}

/// At most 1,820 regions are Ready or Ticking.
pub fn live_stay_few()
    ensures { LiveStayFew }
{}
