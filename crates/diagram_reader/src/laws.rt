//! Laws of the reading of diagrams. Each is a function that does nothing; its contract is the law.

ghost use Rattle.diagram_reader.specs.Obeying.{DiagramsObey, DiagramsAreOver, WaitDiagramsFit, ResponseDiagramsFit};

/// A diagram that was read obeys the rules of its kind: its nodes have different numbers above 0, at most 64 of them, and
/// ranks and just helpers where the kind wants them; its edges lead between its nodes, not upward, on transitions.
pub fn diagrams_obey()
    ensures { DiagramsObey }
{}

/// A diagram that was read with a program's names speaks of its variables by their types, and of its locations.
pub fn diagrams_are_over()
    ensures { DiagramsAreOver }
{}

/// The nodes of a wait diagram that was read are levels of a goal with as many levels, as the rule asks.
pub fn wait_diagrams_fit()
    ensures { WaitDiagramsFit }
{}

/// The nodes of a chain or rank diagram that was read have just helpers, as the rule asks.
pub fn response_diagrams_fit()
    ensures { ResponseDiagramsFit }
{}
