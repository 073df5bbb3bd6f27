use st_program::NameTable;
use transition_system::Fts;

/// What a script is read for: the names of the program, and its transitions.
#[derive(Drop)]
pub struct Setting<'s> {
    pub names: &'s NameTable,
    pub fts: &'s Fts,
}
