//! Laws of the limits of groups. Each is a function that does nothing; its contract is the law.

ghost use Rattle.group_limits.specs.Choices.{PathsAreChoices, PathsRefuse};
ghost use Rattle.group_limits.specs.Weights.{WeightsAreAdded};
ghost use Rattle.group_limits.specs.Atoms.{AtomsRefuse};
ghost use Rattle.group_limits.specs.Order.{GroupsAreAnswered, GroupsAreTyped};

/// The paths that are listed of a group are those that some choices of branches make.
pub fn paths_are_choices()
    ensures { PathsAreChoices }
{}

/// A group is refused for its paths exactly where branches can be chosen in more than 64 ways.
pub fn paths_refuse()
    ensures { PathsRefuse }
{}

/// Where no other limit is passed, a group adds the weights of its paths, and is refused where the sum is more than 16,777,216.
pub fn weights_are_added()
    ensures { WeightsAreAdded }
{}

/// Where there are few paths and each number stays small, a group is refused for its atoms exactly where a guard or a truth value on
/// some path has more than 2,048, and all before it are within the limits.
pub fn atoms_refuse()
    ensures { AtomsRefuse }
{}

/// Of a group of typed parts, behind groups within the limit, exactly this is answered, and at its place: too many paths; else a
/// number past 2^30; else too many atoms; else the weight where it is past the limit; else the weight with the group.
pub fn groups_are_answered()
    ensures { GroupsAreAnswered }
{}

/// The typer ends at a grouped statement whose parts are typed for exactly that, and exactly that stands among the rules.
pub fn groups_are_typed()
    ensures { GroupsAreTyped }
{}
