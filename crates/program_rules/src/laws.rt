//! Laws of the rules on programs. Each is a function that does nothing; its contract is the law.

ghost use Rattle.program_rules.specs.Theorems.{LawfulIsTyping, LawfulIsWell, RulesAreKept};

/// Typing gives a program exactly where the tree stands for it and it breaks no rule.
pub fn lawful_is_typing()
    ensures { LawfulIsTyping }
{}

/// What such a tree stands for is a program, of which the laws of meaning speak.
pub fn lawful_is_well()
    ensures { LawfulIsWell }
{}

/// Of a program that a tree stands for, the list of broken rules is empty exactly where it is lawful.
pub fn rules_are_kept()
    ensures { RulesAreKept }
{}
