//! Laws of the grammar of programs. Each is a function that does nothing; its contract is the law.

ghost use Rattle.spl_parser.specs.Theorems.{ReadOnce, SpelledIsRead, ReadIsSpelled, FirstFault, LimitsRefuse, LimitsAreMet};

/// No list of tokens stands for two programs.
pub fn programs_read_once()
    ensures { ReadOnce }
{}

/// A text that spells a program within its limits is read to that program.
pub fn what_is_spelled_is_read()
    ensures { SpelledIsRead }
{}

/// A text that is refused has the fault as its first: the tokens before it begin some program, and none goes on there.
pub fn first_fault()
    ensures { FirstFault }
{}

/// A text that is read to a program spells it within its limits.
pub fn what_is_read_is_spelled()
    ensures { ReadIsSpelled }
{}

/// A text that spells a program beyond its limits is refused for a limit.
pub fn limits_refuse()
    ensures { LimitsRefuse }
{}

/// A limit is named only at a token over which programs go on, but none within that limit.
pub fn limits_are_met()
    ensures { LimitsAreMet }
{}
