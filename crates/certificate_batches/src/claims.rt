use control_states::Components;
use st_form::{Condition, Variable};

/// Conditions, and the components and variables that they speak of.
#[derive(Clone, Copy)]
pub struct Claims<'a> {
    pub components: &'a Components,
    pub variables: &'a [Variable],
    pub conditions: &'a [Condition],
}
