//! The steps of the grid, over any state that keeps the rules.

ghost use Rattle.fol_laws.specs.Steps.{EmptyHasRules, AddKeepsRules, DropKeepsRules, BeginKeepsRules, ReleaseKeepsRules};
ghost use Rattle.fol_laws.specs.Steps.{AddKeepsTickingSections, ReleaseKeepsTickingSections};
ghost use Rattle.fol_laws.specs.Parts.{ReleaseSplitsByPaths};
ghost use Rattle.fol_laws.specs.Target.{AddTargetsTheLargest};
ghost use Rattle.fol_laws.specs.Consequences.{RulesGiveMargin, RulesKeepTickingApart, RulesLetNoneWaitAlone, RulesKeepLiveFew};

/// The grid with no section keeps the rules.
pub fn empty_has_rules()
    ensures { EmptyHasRules }
{}

/// Adding a hold on a chunk keeps the rules.
pub fn add_keeps_rules()
    ensures { AddKeepsRules }
{}

/// Removing a hold on a chunk keeps the rules.
pub fn drop_keeps_rules()
    ensures { DropKeepsRules }
{}

/// The begin of the tick of a Ready region keeps the rules.
pub fn begin_keeps_rules()
    ensures { BeginKeepsRules }
{}

/// The release of a Ticking region keeps the rules.
pub fn release_keeps_rules()
    ensures { ReleaseKeepsRules }
{}

/// A Ticking region keeps its sections when a hold on any chunk is added.
pub fn add_keeps_ticking_sections()
    ensures { AddKeepsTickingSections }
{}

/// A Ticking region keeps its sections at the release of another region.
pub fn release_keeps_ticking_sections()
    ensures { ReleaseKeepsTickingSections }
{}

/// The sections that an added hold wants go to the largest near region that is not Ticking, or to a new one.
pub fn add_targets_the_largest()
    ensures { AddTargetsTheLargest }
{}

/// A released region falls into the classes of its sections under paths of neighbours.
pub fn release_splits_by_paths()
    ensures { ReleaseSplitsByPaths }
{}

/// A Ready region has the margin of its loaded chunks.
pub fn rules_give_margin()
    ensures { RulesGiveMargin }
{}

/// Two Ticking regions have no sections within the merge radius of each other.
pub fn rules_keep_ticking_apart()
    ensures { RulesKeepTickingApart }
{}

/// Where no region is Ticking, none is Transient.
pub fn rules_let_none_wait_alone()
    ensures { RulesLetNoneWaitAlone }
{}

/// At most 1,820 regions are Ready or Ticking.
pub fn rules_keep_live_few()
    ensures { RulesKeepLiveFew }
{}
