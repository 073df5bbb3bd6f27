//! What is added up: rows and equations, and their multipliers.

ghost use Rattle.std.specs.Prelude.{◌≡◌, ℤ, pos};
ghost use Rattle.farkas_leaf.specs.Leaf.{as_row};
ghost use Rattle.farkas_leaf.specs.Lent.{lent_line};
ghost use Rattle.st_linear.specs.declared.rows.Line.{Line};

use st_linear::{Lin, Line};

/// A row or an equation.
pub trait Constraint {
    ghost line: { Self → Line };

    fn form(&self) -> &Lin
        ensures { result.now ≡ (line self.now).form };

    fn is_equation(&self) -> bool
        ensures { result ≡ (line self.now).equal };
}

impl Constraint for Lin {
    ghost line = { as_row };

    fn form(&self) -> &Lin {
        self
    }

    fn is_equation(&self) -> bool {
        false
    }
}

impl Constraint for Line {
    ghost line = { λ l. l };

    fn form(&self) -> &Lin {
        &self.form
    }

    fn is_equation(&self) -> bool {
        self.equal
    }
}

/// A row or an equation whose form is lent.
#[derive(Clone, Copy)]
pub struct LentLine<'a> {
    pub form: &'a Lin,
    pub equal: bool,
}

impl Constraint for LentLine<'_> {
    ghost line = { lent_line };

    fn form(&self) -> &Lin {
        self.form
    }

    fn is_equation(&self) -> bool {
        self.equal
    }
}

/// A multiplier.
pub trait Multiplier: Copy {
    ghost signed: { Self → ℤ };

    fn number(self) -> i128
        ensures { result ≡ signed self };
}

impl Multiplier for u64 {
    ghost signed = { λ n. pos n };

    fn number(self) -> i128 {
        i128::from(self)
    }
}

impl Multiplier for i64 {
    ghost signed = { λ z. z };

    fn number(self) -> i128 {
        i128::from(self)
    }
}
