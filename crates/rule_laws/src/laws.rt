//! The laws of the rules. Each is a function that does nothing; its contract is the law.

ghost use Rattle.rule_laws.specs.Laws.{InvarianceIsSound, WaitingForIsSound, RankedNetIsSound, NestedNetIsSound, WaitDiagramIsSound, ChainDiagramIsSound, RankDiagramIsSound};

/// Basic invariance, and invariance by a stronger formula.
pub fn invariance_is_sound()
    ensures { InvarianceIsSound }
{}

/// Nested waiting-for by a formula for each level.
pub fn waiting_for_is_sound()
    ensures { WaitingForIsSound }
{}

/// Response by a ranked net, within the stated number of rounds.
pub fn ranked_net_is_sound()
    ensures { RankedNetIsSound }
{}

/// Response by a net whose groups stand in groups.
pub fn nested_net_is_sound()
    ensures { NestedNetIsSound }
{}

/// Nested waiting-for by a wait diagram.
pub fn wait_diagram_is_sound()
    ensures { WaitDiagramIsSound }
{}

/// Response by a chain diagram.
pub fn chain_diagram_is_sound()
    ensures { ChainDiagramIsSound }
{}

/// Response by a rank diagram.
pub fn rank_diagram_is_sound()
    ensures { RankDiagramIsSound }
{}
