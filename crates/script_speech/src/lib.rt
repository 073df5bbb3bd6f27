//! What the goals and rules of a script speak of, as definitions: a program's variables and locations, with small numbers.
#![tactic(auto)]
