//! What a walk over the text has met so far.

ghost use Rattle.std.specs.Prelude.{◌≡◌};
ghost use Rattle.st_reading.specs.Faults.{name_view};
ghost use Rattle.spl_typer.specs.Walk.{state, entries, is_declared, declared_as, Makes, Moves, new_location, new_occurrence, with_weight};

use expression_typer::TypeFault;
use spl_parser::RawName;
use st_tokens::LimitKind;

/// What a name stands for: a variable, which may be boolean, a process, or a location and perhaps a statement.
#[derive(Clone, Copy, Debug)]
pub enum Mark {
    Variable(bool),
    Process,
    Label(u32, Option<u32>),
}

/// A declared name.
#[derive(Clone, Copy, Debug)]
pub struct Entry<'a> {
    pub name: &'a [u8],
    pub mark: Mark,
}

/// The names that were declared, the next numbers, and the weight of the groups so far.
#[derive(Drop)]
pub struct Walk<'a> {
    pub names: Vec<Entry<'a>>,
    pub occ: u32,
    pub loc: u32,
    pub weight: u64,
}

fn is_declared<'a>(names: &[Entry<'a>], name: &[u8]) -> bool
    ensures { result ≡ is_declared name.now (entries names.now) }
{
    for entry in names {
        if entry.name == name {
            return true;
        }
    }
    false
}

impl<'a> Walk<'a> {
    /// Declares a name.
    pub fn declare(&mut self, name: &RawName<'a>, mark: Mark) -> Result<(), TypeFault>
        ensures { Moves result (state self.new) (declared_as (name_view name.now) mark (state self.old)) }
    {
        if is_declared(&self.names, name.text) {
            return Err(TypeFault::Twice(name.place));
        }
        self.names.push(Entry {
            name: name.text,
            mark,
        })?;
        Ok(())
    }

    /// A new location.
    pub fn location(&mut self, place: u64) -> Result<u32, TypeFault>
        ensures { Makes (λ l. l) result (state self.new) (new_location place (state self.old)) }
    {
        let loc = self.loc;
        if loc < u32::MAX {
            self.loc = loc + 1;
            Ok(loc)
        } else {
            Err(TypeFault::Limit(LimitKind::Statements, place))
        }
    }

    /// A new occurrence.
    pub fn occurrence(&mut self, place: u64) -> Result<u32, TypeFault>
        ensures { Makes (λ o. o) result (state self.new) (new_occurrence place (state self.old)) }
    {
        let occ = self.occ;
        if occ < 400 {
            self.occ = occ + 1;
            Ok(occ)
        } else {
            Err(TypeFault::Limit(LimitKind::Statements, place))
        }
    }

    /// The weight with one more group.
    pub fn weigh(&mut self, weight: u64)
        ensures { state self.new ≡ with_weight weight (state self.old) }
    {
        self.weight = weight;
    }
}
