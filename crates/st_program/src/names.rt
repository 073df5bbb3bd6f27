//! The names of a program: its variables, and the labels of its statements and ends.

ghost use Rattle.std.specs.Prelude.{◌≡◌, ◌<◌, ◌++◌, ◌^◌, [], map, length, IfOk};
ghost use Rattle.std.specs.Option.{option_map};
ghost use Rattle.std.specs.String.{string_bytes};
ghost use Rattle.st_program.specs.Names.{as_bytes, AreApart, label_of, statement_label, is_occurrence as occurrence_test};

use indexmap::IndexMap;
use st_memory::Memory;
use std::alloc::Global;
use std::collections::VecDeque;
use std::marker::Model;

/// The names of a program. Variables are in the order of their numbers, each with whether it is boolean; labels and end
/// labels are in text order, each with its location and, where it is a statement's, its occurrence. No name stands twice.
#[derive(Drop)]
pub struct NameTable {
    variables: IndexMap<String, bool>,
    labels: IndexMap<String, (u32, Option<u32>)>,
}

impl Model for NameTable {
    ghost use Rattle.std.specs.Prelude.{◌<◌, ◌^◌, ◌++◌, map, length};
    ghost use Rattle.st_program.specs.Names.{Names, names_code, as_bytes, AreApart, names_in};

    ghost Value = { Names };

    ghost coded = { names_code };

    ghost view = { λ t. record { variables = as_bytes t.variables.entries; labels = as_bytes t.labels.entries } };

    ghost invariant = { λ t.
        AreApart (names_in (as_bytes t.variables.entries) ++ names_in (as_bytes t.labels.entries))
        × (length (as_bytes t.variables.entries) < 2 ^ 32) };
}

impl NameTable {
    ghost use Rattle.std.specs.Prelude.{◌≡◌, ◌<◌, ◌++◌, ◌^◌, map, length, position, slice_get, IfOk, Some, None};
    ghost use Rattle.std.specs.Option.{option_map, option_and_then};
    ghost use Rattle.std.specs.Str.{bytes_eq};
    ghost use Rattle.std.specs.String.{string_bytes};
    ghost use Rattle.st_program.specs.Names.{as_bytes, names_in, AreApart, named, label_of, statement_label};

    /// The table of these names: the variables in order, each with whether it is boolean; the labels and end labels in text
    /// order, each with its location and, where it is a statement's, its occurrence.
    pub fn new(
        alloc: Global,
        variables: Vec<(String, bool)>,
        labels: Vec<(String, u32, Option<u32>)>,
    ) -> Result<NameTable, Memory>
        requires apart { AreApart (map (λ v. string_bytes v.0) variables.items ++ map (λ l. string_bytes l.0) labels.items) }
        requires few { length variables.items < 2 ^ 32 }
        ensures variables { IfOk result (λ t. t.variables ≡ map (λ v. (string_bytes v.0, v.1)) variables.items) }
        ensures labels { IfOk result (λ t. t.labels ≡ map (λ l. (string_bytes l.0, (l.1, l.2))) labels.items) }
    {
        let variables = filled(alloc, variables)?;
        let labels = filled(alloc, placed(alloc, labels)?)?;
        Ok(NameTable { variables, labels })
    }

    /// The number of the variable with this name, or `None` where no variable has it.
    pub fn variable(&self, name: &str) -> Option<u32>
        ensures { result ≡ position (λ k. bytes_eq name.now k) (names_in self.now.variables) }
    {
        match self.variables.get_index_of(name) {
            Some(place) => Some(place as u32),
            None => None,
        }
    }

    /// The location of the label with this name, or `None` where no label has it.
    pub fn label(&self, name: &str) -> Option<u32>
        ensures { result ≡ option_map (λ l. l.0) (named name.now self.now.labels) }
    {
        match self.labels.get(name) {
            Some(place) => Some(place.0),
            None => None,
        }
    }

    /// The occurrence of the statement with this label, or `None` where no statement has it.
    pub fn labelled(&self, name: &str) -> Option<u32>
        ensures { result ≡ option_and_then (λ l. l.1) (named name.now self.now.labels) }
    {
        match self.labels.get(name) {
            Some(place) => place.1,
            None => None,
        }
    }

    /// The name of a variable.
    pub fn variable_name(&self, var: u32) -> &str
        requires { var < length self.now.variables }
        ensures { slice_get (names_in self.now.variables) var ≡ Some result.now }
    {
        match self.variables.get_index(var as usize) {
            Some(entry) => entry.0.as_str(),
            None => "",
        }
    }

    /// Whether a variable is boolean.
    pub fn truth(&self, var: u32) -> bool
        requires { var < length self.now.variables }
        ensures { option_map (λ v. v.1) (slice_get self.now.variables var) ≡ Some result }
    {
        match self.variables.get_index(var as usize) {
            Some(entry) => *entry.1,
            None => false,
        }
    }

    /// The first label of a location, in text order, or `None` where it has none.
    pub fn location_name(&self, loc: u32) -> Option<&str>
        ensures { option_map (λ s. s.now) result ≡ label_of loc self.now.labels }
    {
        location_label(&self.labels, loc)
    }

    /// The label of the statement with this occurrence, or `None` where it has none.
    pub fn statement_name(&self, occ: u32) -> Option<&str>
        ensures { option_map (λ s. s.now) result ≡ statement_label occ self.now.labels }
    {
        occurrence_label(&self.labels, occ)
    }
}

/// The first label of a location.
fn location_label(labels: &IndexMap<String, (u32, Option<u32>)>, loc: u32) -> Option<&str>
    ensures { option_map (λ s. s.now) result ≡ label_of loc (as_bytes labels.now.entries) }
{
    for index in 0..labels.len() {
        let Some(entry) = labels.get_index(index) else {
            return None;
        };
        if entry.1.0 == loc {
            return Some(entry.0.as_str());
        }
    }
    None
}

/// The label of the statement with an occurrence.
fn occurrence_label(labels: &IndexMap<String, (u32, Option<u32>)>, occ: u32) -> Option<&str>
    ensures { option_map (λ s. s.now) result ≡ statement_label occ (as_bytes labels.now.entries) }
{
    for index in 0..labels.len() {
        let Some(entry) = labels.get_index(index) else {
            return None;
        };
        if is_occurrence(occ, entry.1.1) {
            return Some(entry.0.as_str());
        }
    }
    None
}

/// Whether a label is that of the statement with this occurrence.
fn is_occurrence(occ: u32, labelled: Option<u32>) -> bool
    ensures { result ≡ occurrence_test occ labelled }
{
    match labelled {
        Some(labelled) => labelled == occ,
        None => false,
    }
}

/// Labels with their places as pairs.
fn placed(
    alloc: Global,
    labels: Vec<(String, u32, Option<u32>)>,
) -> Result<Vec<(String, (u32, Option<u32>))>, Memory>
    ensures { IfOk result (λ v. v.items ≡ map (λ l. (l.0, (l.1, l.2))) labels.items) }
{
    let mut pairs = Vec::with_capacity(alloc, labels.len())?;
    let mut rest = VecDeque::from_vec(labels);
    while let Some((name, location, occ)) = rest.pop_front() {
        pairs.push((name, (location, occ)))?;
    }
    Ok(pairs)
}

/// The map in which each pair is inserted in turn.
fn filled<V: Drop>(alloc: Global, pairs: Vec<(String, V)>) -> Result<IndexMap<String, V>, Memory>
    requires { AreApart (map (λ p. string_bytes p.0) pairs.items) }
    ensures { IfOk result (λ m. m.entries ≡ pairs.items) }
{
    let mut all = IndexMap::new(alloc);
    let mut rest = VecDeque::from_vec(pairs);
    while let Some((name, value)) = rest.pop_front() {
        all.insert(name, value)?;
    }
    Ok(all)
}
