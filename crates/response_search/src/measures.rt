//! Linear forms that no step makes larger, and that are at least 0: of such a form, where it falls on each way round, ranks are made.
//!
//! Candidates are variables, sums and differences of two, and the rows that the program's texts compare with 0. Ranks by linear forms
//! whose coefficients are solved for are complete (Podelski and Rybalchenko, A complete method for the synthesis of linear ranking
//! functions, 2004); loops over counters nearly always have one of these.

use crate::chain::ChainItem;
use crate::edges::{Edge, may_be, move_question};
use crate::items::Denied;
use crate::ranks::{difference, form_behind, is_bounded, raised, row_form};
use control_cubes::{CubeFault, opposite};
use invariant_search::{ALWAYS, Allowed, Search};
use st_form::{Lin, Variable};
use std::alloc::Global;

/// The most candidates.
const MOST: usize = 200;

/// Items with the edges between them.
#[derive(Clone, Copy)]
pub(crate) struct Web<'c> {
    pub(crate) goal: &'c Denied,
    pub(crate) items: &'c [ChainItem],
    pub(crate) edges: &'c [Edge],
}

/// Appends the sum and the differences of a variable and each earlier one.
fn push_pairs(
    alloc: Global,
    earlier: &[Lin],
    form: &Lin,
    out: &mut Vec<Lin>,
) -> Result<(), CubeFault> {
    for other in earlier {
        out.push(difference(alloc, other, form)?)?;
        out.push(difference(alloc, form, other)?)?;
        out.push(form.add(alloc, other)?)?;
    }
    Ok(())
}

/// The integer variables as forms.
fn variable_forms(alloc: Global, variables: &[Variable]) -> Result<Vec<Lin>, CubeFault> {
    let mut out = Vec::new(alloc);
    for (number, variable) in variables.iter().enumerate() {
        if let Ok(number) = u32::try_from(number)
            && !variable.truth
        {
            out.push(Lin::variable(alloc, number)?)?;
        }
    }
    Ok(out)
}

/// All candidates: variables first, then sums and differences, then rows.
pub(crate) fn candidates(
    alloc: Global,
    search: &Search<'_>,
    variables: &[Variable],
) -> Result<Vec<Lin>, CubeFault> {
    let forms = variable_forms(alloc, variables)?;
    let mut pairs = Vec::new(alloc);
    for (number, form) in forms.iter().enumerate() {
        if let Some(earlier) = forms.get(..number) {
            push_pairs(alloc, earlier, form, &mut pairs)?;
        }
    }
    for row in search.pool() {
        pairs.push(row.copy(alloc)?)?;
        pairs.push(opposite(alloc, row)?)?;
    }
    let mut out = forms;
    out.append(&mut pairs)?;
    out.truncate(MOST);
    Ok(out)
}

impl Web<'_> {
    /// Whether a form may be larger by so much, or more, behind an edge than in front of it.
    fn may_rise(
        &self,
        alloc: Global,
        search: &mut Search<'_>,
        edge: Edge,
        form: &Lin,
        by: i128,
    ) -> Result<bool, CubeFault> {
        let behind = form_behind(alloc, search, edge.step, form)?;
        let row = raised(
            alloc,
            &difference(alloc, &behind, form)?,
            by.saturating_neg(),
        )?;
        if row.entries().is_empty() {
            return Ok(row.constant() >= 0);
        }
        let Some(item) = self.items.get(edge.from) else {
            return Ok(true);
        };
        let mut forms = move_question(alloc, search, self.goal, item, edge.step)?;
        forms.push(row_form(alloc, row)?)?;
        may_be(alloc, search, forms)
    }

    /// Whether no edge makes a form larger.
    fn never_rises(
        &self,
        alloc: Global,
        search: &mut Search<'_>,
        form: &Lin,
    ) -> Result<bool, CubeFault> {
        for edge in self.edges {
            if self.may_rise(alloc, search, *edge, form, 1)? {
                return Ok(false);
            }
        }
        Ok(true)
    }

    /// Whether some edge changes a form.
    fn moves(&self, alloc: Global, search: &Search<'_>, form: &Lin) -> Result<bool, CubeFault> {
        for edge in self.edges {
            let behind = form_behind(alloc, search, edge.step, form)?;
            let change = difference(alloc, &behind, form)?;
            if !change.entries().is_empty() || change.constant() != 0 {
                return Ok(true);
            }
        }
        Ok(false)
    }

    /// Whether a form is at least 0 at all items.
    pub(crate) fn bounds(
        &self,
        alloc: Global,
        search: &mut Search<'_>,
        form: &Lin,
    ) -> Result<bool, CubeFault> {
        let mut used = Vec::new(alloc);
        for item in self.items {
            let allowed = Allowed::From(ALWAYS);
            if !is_bounded(alloc, search, &item.trial, form, allowed, &mut used)? {
                return Ok(false);
            }
        }
        Ok(true)
    }

    /// Appends a form, or one that is larger by 1, if it is a measure: at least 0, and no edge makes it larger, but some other.
    pub(crate) fn push_measure(
        &self,
        alloc: Global,
        search: &mut Search<'_>,
        form: &Lin,
        out: &mut Vec<Lin>,
    ) -> Result<(), CubeFault> {
        if !self.moves(alloc, search, form)? || !self.never_rises(alloc, search, form)? {
            return Ok(());
        }
        for by in [0i128, 1] {
            let form = raised(alloc, form, by)?;
            if self.bounds(alloc, search, &form)? {
                out.push(form)?;
                return Ok(());
            }
        }
        Ok(())
    }

    /// Those of some edges on which a form need not fall. Edges that may leave their item as it is aren't among them.
    pub(crate) fn level_edges(
        &self,
        alloc: Global,
        search: &mut Search<'_>,
        edges: &[Edge],
        form: &Lin,
    ) -> Result<Vec<Edge>, CubeFault> {
        let mut out = Vec::new(alloc);
        for edge in edges {
            if !edge.stay && self.may_rise(alloc, search, *edge, form, 0)? {
                out.push(*edge)?;
            }
        }
        Ok(out)
    }
}
