//! Laws of the reading of scripts. Each is a function that does nothing; its contract is the law.

ghost use Rattle.proof_script.specs.Obeying.{ScriptsCiteInvariances, RulesFitGoals, ScriptsAreProofs, GroupsAreFew};
ghost use Rattle.proof_script.specs.Speaking.{ScriptsAreOver};

/// Each step of a script that was read cites only steps that stand before it and are invariances.
pub fn scripts_cite_invariances()
    ensures { ScriptsCiteInvariances }
{}

/// The rule of each step of a script that was read is one for its goal, and fits the system: as many levels as formulas and at
/// most 64, nodes that are levels of the goal, just helpers, compassionate groups.
pub fn rules_fit_goals()
    ensures { RulesFitGoals }
{}

/// So a script that was read is a proof, whose goals hold where its conditions do.
pub fn scripts_are_proofs()
    ensures { ScriptsAreProofs }
{
    scripts_cite_invariances();
    rules_fit_goals();
}

/// A node of a nested net that was read stands in at most four groups.
pub fn groups_are_few()
    ensures { GroupsAreFew }
{}

/// A script that was read with a program's names speaks of its variables by their types, and of its locations, with small
/// numbers.
pub fn scripts_are_over()
    ensures { ScriptsAreOver }
{}
