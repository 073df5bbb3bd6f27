//! Laws of the grammar of scripts and of their rules. Each is a function that does nothing; its contract is the law.

ghost use Rattle.script_grammar.specs.FirstFaults.{TransitionsFirstFault, HelpersFirstFault, GroupsFirstFault, NewNamesFirstFault, CitationsFirstFault};
ghost use Rattle.script_grammar.specs.FirstFaults.{FormulasFirstFault, SumsFirstFault, ListedFormulasFirstFault, HelpedFirstFault, RankedFirstFault, FairFirstFault, InvariancesFirstFault, KnownNumbersFirstFault, NewNumbersFirstFault};
ghost use Rattle.script_grammar.specs.FirstFaults.{ChainsFirstFault, RankingsFirstFault, FairListsFirstFault, NetsFirstFault, NestedNetsFirstFault, DrawingsFirstFault};
ghost use Rattle.script_grammar.specs.FirstFaults.{RulesFirstFault, ResponsesFirstFault, InvarianceStepsFirstFault, WaitingStepsFirstFault, ResponseStepsFirstFault, ScriptsFirstFault};
ghost use Rattle.script_grammar.specs.Theorems.{ScriptsAreLawful, DiagramsAreLawful};

/// A text is read as a script exactly where its tokens spell a tree that breaks no rule, and the script is what the tree means.
pub fn scripts_are_lawful()
    ensures { ScriptsAreLawful }
{}

/// Tokens stand for a diagram exactly where they spell a tree that breaks no rule, and the diagram is what the tree means.
pub fn diagrams_are_lawful()
    ensures { DiagramsAreLawful }
{}

/// The name of a transition is refused exactly for its first fault: it is that of none, which is found at its last token, or
/// else the grammar doesn't go on.
pub fn transitions_first_fault()
    ensures { TransitionsFirstFault }
{}

/// So is a helper, which has to be just.
pub fn helpers_first_fault()
    ensures { HelpersFirstFault }
{}

/// And a group, which has to be compassionate.
pub fn groups_first_fault()
    ensures { GroupsFirstFault }
{}

/// And the name of a step, which no earlier one has.
pub fn new_names_first_fault()
    ensures { NewNamesFirstFault }
{}

/// And the name of a step that is cited: an earlier one, and an invariance.
pub fn citations_first_fault()
    ensures { CitationsFirstFault }
{}

/// The number of a node that an edge joins is refused exactly for its first fault: it is 0, or that of a node that is drawn.
pub fn known_numbers_first_fault()
    ensures { KnownNumbersFirstFault }
{}

/// So is that of a new node, which no other has, and which in a wait diagram is that of a level.
pub fn new_numbers_first_fault()
    ensures { NewNumbersFirstFault }
{}

/// A formula is refused exactly for its first fault: the token that passes its 32 levels, the first rule of typing, which is
/// found at its last token, or else the grammar doesn't go on.
pub fn formulas_first_fault()
    ensures { FormulasFirstFault }
{}

/// So is an integer expression.
pub fn sums_first_fault()
    ensures { SumsFirstFault }
{}

/// And a formula that is listed: behind 64 others it is one too many, which is found at its last token.
pub fn listed_formulas_first_fault()
    ensures { ListedFormulasFirstFault }
{}

/// An item that has a helper, behind fewer than 64 others, is refused exactly for its first fault.
pub fn helped_first_fault()
    ensures { HelpedFirstFault }
{}

/// So is one that has a rank and a helper.
pub fn ranked_first_fault()
    ensures { RankedFirstFault }
{}

/// So is one whose helper may be left out.
pub fn fair_first_fault()
    ensures { FairFirstFault }
{}

/// The claim of an invariance is refused exactly for its first fault.
pub fn invariances_first_fault()
    ensures { InvariancesFirstFault }
{}

/// So is a list of items with helpers, in brackets: at most 64, and a further one is found at the end of its formula.
pub fn chains_first_fault()
    ensures { ChainsFirstFault }
{}

/// So is one of items with ranks and helpers.
pub fn rankings_first_fault()
    ensures { RankingsFirstFault }
{}

/// So is one of items whose helpers may be left out.
pub fn fair_lists_first_fault()
    ensures { FairListsFirstFault }
{}

/// So is one of nodes of a net: that a node has neither a group nor a helper is found at the token behind it.
pub fn nets_first_fault()
    ensures { NetsFirstFault }
{}

/// So is one of nodes of a nested net, of which one may lack levels and a helper.
pub fn nested_nets_first_fault()
    ensures { NestedNetsFirstFault }
{}

/// The rule of a response, of each manner, is refused exactly for its first fault.
pub fn rules_first_fault()
    ensures { RulesFirstFault }
{}

/// So is the claim of a response, with its rule.
pub fn responses_first_fault()
    ensures { ResponsesFirstFault }
{}

/// A step that claims an invariance is refused exactly for its first fault.
pub fn invariance_steps_first_fault()
    ensures { InvarianceStepsFirstFault }
{}

/// So is one that claims a waiting-for, whose levels are counted at the token behind them.
pub fn waiting_steps_first_fault()
    ensures { WaitingStepsFirstFault }
{}

/// So is one that claims a response.
pub fn response_steps_first_fault()
    ensures { ResponseStepsFirstFault }
{}

/// A text is refused as a script exactly for its first fault: the first rule that is broken in what begins it, at the token at
/// which that is found, or else where the grammar doesn't go on.
pub fn scripts_first_fault()
    ensures { ScriptsFirstFault }
{}

/// A drawing of each kind is refused exactly for its first fault.
pub fn drawings_first_fault()
    ensures { DrawingsFirstFault }
{}
