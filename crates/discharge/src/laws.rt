//! Laws of the numbers of pieces.

ghost use Rattle.std.specs.Prelude.{ℕ, ◌+◌, ◌<◌, ◌≤◌};
ghost use Rattle.discharge.specs.Pieces.{IsPiece};

/// Any range has a piece, and with a worker each number is one of the range's own: so two halves share none. With no
/// fewer conditions than workers each of those numbers is a piece.
pub fn numbers_of_pieces()
    ensures within { (first workers count piece : ℕ) → 0 < workers → IsPiece first workers count piece → (first ≤ piece) × (piece < first + workers) }
    ensures some { (first workers count : ℕ) → (piece : ℕ) × IsPiece first workers count piece }
    ensures each { (first workers count piece : ℕ) → workers ≤ count → first ≤ piece → piece < first + workers → IsPiece first workers count piece }
{}
