//! A program's table of names, as what the names of an expression stand for.

ghost use Rattle.std.specs.Prelude.{◌≡◌};
ghost use Rattle.std.specs.Option.{option_map};
ghost use Rattle.expression_typer.specs.Naming.{is_text};
ghost use Rattle.expression_typer.specs.Naming.{text_of};

use expression_typer::Naming;
use st_program::NameTable;

fn is_text(name: &[u8]) -> bool
    ensures { result ≡ is_text name.now }
{
    for byte in name {
        if *byte >= 128 {
            return false;
        }
    }
    true
}

/// A name as text, where it is one of ASCII.
pub fn text_of(name: &[u8]) -> Option<&str>
    ensures { option_map (λ s. s.now) result ≡ text_of name.now }
{
    if !is_text(name) {
        return None;
    }
    match str::from_utf8(name) {
        Ok(text) => Some(text),
        Err(_) => None,
    }
}

/// All variables and labels of a program.
#[derive(Drop)]
pub struct Table<'n> {
    pub names: &'n NameTable,
}

impl Naming for Table<'_> {
    ghost use Rattle.expression_typer.specs.Naming.{names_of};

    ghost told = { λ t. names_of t.names.now };

    fn variable(&self, name: &[u8]) -> Option<(u32, bool)> {
        let var = self.names.variable(text_of(name)?)?;
        Some((var, self.names.truth(var)))
    }

    fn place(&self, name: &[u8]) -> Option<u32> {
        self.names.label(text_of(name)?)
    }
}
