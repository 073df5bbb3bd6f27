//! The law of what is written. It is a function that does nothing; its contract is the law.

ghost use Rattle.std.specs.Prelude.{◌≡◌, Ok};
ghost use Rattle.shared_certificates.specs.Nodes.{Shared};
ghost use Rattle.shared_certificates.specs.Lines.{lines};
ghost use Rattle.shared_certificates.specs.Reading.{text_read};
ghost use Rattle.shared_writing.specs.Writing.{IsTable, text_of};

/// What is written of a table within the limits is read as the same table.
pub fn written_is_read()
    ensures { (t : Shared) → IsTable t → text_read (lines (text_of t)) ≡ Ok t }
{}
