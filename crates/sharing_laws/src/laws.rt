//! The laws of the search over lists, each the contract of a function that does nothing.

ghost use Rattle.sharing_laws.specs.Contexts.{ContextsFindTheSame, FoundTreesAreValid};

/// A tree within the limits that the search over lists of conjuncts in contexts finds for a condition is the certificate
/// that the search over problems finds.
pub fn contexts_find_the_same()
    ensures { ContextsFindTheSame }
{}

/// A tree that the search over lists of conjuncts in contexts finds for a condition is a valid certificate of it, also where it has more
/// nodes than the search over problems takes.
pub fn found_trees_are_valid()
    ensures { FoundTreesAreValid }
{}
