//! Laws of the grammar of scripts. Each is a function that does nothing; its contract is the law.

ghost use Rattle.proof_grammar.specs.Growing.{NothingStands, LinesStand, CommentsAddNothing, StandingIsSpelled, ScriptsGoOn};
ghost use Rattle.proof_grammar.specs.Theorems.{ScriptsReadOnce, SpelledScriptsAreRead, ReadScriptsAreSpelled};

/// No list of tokens stands for two scripts.
pub fn scripts_read_once()
    ensures { ScriptsReadOnce }
{}

/// A text that spells a script is read as it.
pub fn spelled_scripts_are_read()
    ensures { SpelledScriptsAreRead }
{}

/// A text that is read as a script spells it, up to its end.
pub fn read_scripts_are_spelled()
    ensures { ReadScriptsAreSpelled }
{}

/// What was read of a text stands, whatever is written in the lines behind it, and is spelled. A comment adds nothing to it, and a
/// text with more behind it spells the same steps, and maybe more.
pub fn what_is_read_stands()
    ensures nothing { NothingStands }
    ensures lines { LinesStand }
    ensures comments { CommentsAddNothing }
    ensures spelled { StandingIsSpelled }
    ensures longer { ScriptsGoOn }
{}
