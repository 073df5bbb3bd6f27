//! Proof scripts.

use crate::diagrams::Diagram;
use crate::goals::Goal;
use crate::nested::NestedNet;
use crate::nets::Net;
use st_form::Form;

/// How a goal is proved.
#[derive(Drop)]
pub enum RuleText {
    /// An invariance by itself.
    Basic,
    /// An invariance by a stronger formula.
    Stronger(Form),
    /// Nested waiting-for by one formula for each level, the highest first.
    Levels(Vec<Form>),
    /// A response by a ranked net.
    Net(Net),
    /// Nested waiting-for or a response by a diagram.
    Diagram(Diagram),
    /// A response by a nested net.
    Nested(NestedNet),
}

/// A step of a script: the name of its goal, the goal, its rule, and the numbers of the earlier steps that it cites.
#[derive(Drop)]
pub struct Step {
    pub name: String,
    pub goal: Goal,
    pub rule: RuleText,
    pub cited: Vec<u32>,
}

/// A proof script.
#[derive(Drop)]
pub struct Script {
    pub steps: Vec<Step>,
}
