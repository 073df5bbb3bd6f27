//! What a component can be at.

/// What a component can be at: one of its own locations, by its number, or inside a cooperation, by the cooperation's
/// occurrence.
#[derive(Clone, Copy, Debug, PartialEq, Eq)]
pub enum Alternative {
    Location(u32),
    Inside(u32),
}
