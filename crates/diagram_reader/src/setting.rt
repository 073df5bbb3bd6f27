use st_program::NameTable;
use temporal_goals::DiagramKind;
use transition_system::Fts;

/// What a diagram is read for: its kind, the highest level of a wait diagram, the names of the program, and its transitions.
#[derive(Drop)]
pub struct Setting<'s> {
    pub kind: DiagramKind,
    pub levels: u32,
    pub names: &'s NameTable,
    pub fts: &'s Fts,
}
