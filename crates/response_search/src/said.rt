//! What is said of a state: a formula, and its text.

use st_form::{Form, SharedForm};
use st_memory::Memory;
use std::alloc::Global;

/// A formula, and its text.
#[derive(Drop)]
pub(crate) struct Said {
    pub(crate) form: SharedForm,
    pub(crate) text: Vec<u8>,
}

impl Said {
    /// A formula with its text.
    pub(crate) fn new(alloc: Global, form: Form, text: Vec<u8>) -> Result<Said, Memory> {
        Ok(Said {
            form: SharedForm::new(alloc, form, 0)?,
            text,
        })
    }

    /// The same again.
    pub(crate) fn copy(&self, alloc: Global) -> Result<Said, Memory> {
        Ok(Said {
            form: self.form.share()?,
            text: Vec::from_slice(alloc, &self.text)?,
        })
    }

    /// This and another together.
    pub(crate) fn and(&self, alloc: Global, other: &Said) -> Result<Said, Memory> {
        let mut text = Vec::from_slice(alloc, &self.text)?;
        text.extend_from_slice(b" /\\ ")?;
        text.extend_from_slice(&other.text)?;
        let parts = both_forms(alloc, self.form.get(), other.form.get())?;
        Said::new(alloc, Form::And(parts), text)
    }
}

/// Copies of two formulas.
pub(crate) fn both_forms(alloc: Global, one: &Form, other: &Form) -> Result<Vec<Form>, Memory> {
    let mut parts = Vec::with_capacity(alloc, 2)?;
    parts.push(one.copy(alloc)?)?;
    parts.push(other.copy(alloc)?)?;
    Ok(parts)
}
