//! The laws. Each is a function that does nothing; its contract is the law.

ghost use Rattle.std.specs.Prelude.{◌≡◌, ◌≤◌, ◌^◌, ℕ, List, ◌++◌, length};
ghost use Rattle.std.specs.Fmt.{decimal};
ghost use Rattle.st_tokens.specs.Text.{front, value_of};
ghost use Rattle.st_tokens.specs.declared.kind.TokenKind.TheVariants.{Name, Numeral};
ghost use Rattle.st_tokens.specs.declared.kind.Front.TheVariants.{Whole};
ghost use Rattle.declared_names.specs.Words.{IsWord};
ghost use Rattle.printed_formulas.specs.Loose.{IsLoose};
ghost use Rattle.printed_formulas.specs.Theorems.{PrintedFormulasAreSpelled, PrintedInvariancesAreRead, ShortFormulasArePrintable};

/// A name is one token, where no letter, digit or underscore follows.
pub fn names_are_tokens()
    ensures { (name after : List ℕ) → IsWord name → IsLoose after → front (name ++ after) ≡ Whole Name (length name) }
{}

/// So is a number up to 2^30, and it writes that number.
pub fn numbers_are_tokens()
    ensures one { (n : ℕ) (after : List ℕ) → n ≤ 2 ^ 30 → IsLoose after → front (decimal n ++ after) ≡ Whole Numeral (length (decimal n)) }
    ensures same { (n : ℕ) → n ≤ 2 ^ 30 → value_of (decimal n) ≡ n }
{}

/// The tokens of a printed formula spell that formula, wherever it stands.
pub fn printed_formulas_are_spelled()
    ensures { PrintedFormulasAreSpelled }
{}

/// Behind a text that stands for steps, a formula that is printed as the invariance of a number is read as that invariance.
pub fn printed_invariances_are_read()
    ensures { PrintedInvariancesAreRead }
{}

/// The formula of an equation between integer variables is printable where it is short and each of its locations has a label.
pub fn short_formulas_are_printable()
    ensures { ShortFormulasArePrintable }
{}
