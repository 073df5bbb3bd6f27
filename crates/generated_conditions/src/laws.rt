//! The law of which conditions are generated. It is a function that does nothing; its contract is the law.

ghost use Rattle.generated_conditions.specs.Laws.{ConditionsAreGenerated};

/// The conditions of a script are those that the rules' laws speak of, in their order, with their names and sizes.
pub fn conditions_are_generated()
    ensures { ConditionsAreGenerated }
{}
