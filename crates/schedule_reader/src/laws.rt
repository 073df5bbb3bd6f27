//! The law of the reading of schedules, the contract of a function that does nothing.

ghost use Rattle.schedule_reader.specs.Obeying.{SchedulesObey};

/// A schedule that was read has for each variable a value of its type and of size 2^30 at most, and at most 1,000 moves, each
/// a transition of the program.
pub fn schedules_obey()
    ensures { SchedulesObey }
{}
