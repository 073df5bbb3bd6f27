//! Laws of words. Each is a function that does nothing; its contract is the law.

ghost use Rattle.step_words.specs.Forms.{NamedForms};
ghost use Rattle.step_words.specs.Request.{RequestsAreStated};

/// The words of each of the six forms are taken, with and without a number of workers from 1 to 64 behind them, and make
/// the request of the form with its names.
pub fn named_forms_are_taken()
    ensures { NamedForms }
{}

/// A workload that words ask for is one of the four.
pub fn requests_are_stated()
    ensures { RequestsAreStated }
{}
