//! What the names of an expression stand for.

ghost use Rattle.std.specs.Prelude.{◌≡◌, map};
ghost use Rattle.std.specs.Option.{option_map};
ghost use Rattle.expression_typer.specs.Scope.{find, known_view, scope_view};

/// A variable that is known at a place.
#[derive(Clone, Copy, Debug)]
pub struct Known<'a> {
    pub name: &'a [u8],
    pub var: u32,
    pub truth: bool,
    pub input: bool,
}

/// The variable with a name.
pub fn find<'a>(scope: &[Known<'a>], name: &[u8]) -> Option<Known<'a>>
    ensures { option_map known_view result ≡ find name.now (scope_view scope.now) }
{
    for known in scope {
        if known.name == name {
            return Some(*known);
        }
    }
    None
}

/// What names stand for: in a program the variables that are known at a place, in a proof all variables and labels.
pub trait Naming {
    ghost use Rattle.std.specs.Prelude.{◌≡◌};
    ghost use Rattle.expression_typer.specs.Scope.{Names};

    ghost told: { Self → Names };

    /// The number of the variable with a name, and whether it is boolean.
    fn variable(&self, name: &[u8]) -> Option<(u32, bool)>
        ensures { result ≡ (told self.now).variable name.now };

    /// The location of the label with a name.
    fn place(&self, name: &[u8]) -> Option<u32>
        ensures { result ≡ (told self.now).place name.now };
}

/// The variables that are known at a place of a program, where no name stands for a location.
#[derive(Drop)]
pub struct Variables<'s, 'a> {
    pub known: &'s [Known<'a>],
}

impl Naming for Variables<'_, '_> {
    ghost use Rattle.expression_typer.specs.Scope.{only, scope_view};

    ghost told = { λ r. only (scope_view r.known.now) };

    fn variable(&self, name: &[u8]) -> Option<(u32, bool)> {
        match find(self.known, name) {
            Some(known) => Some((known.var, known.truth)),
            None => None,
        }
    }

    fn place(&self, _name: &[u8]) -> Option<u32> {
        None
    }
}
