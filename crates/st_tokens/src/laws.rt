//! Laws of tokens, over all texts. Each is a function that does nothing; its contract is the law.

ghost use Rattle.std.specs.Prelude.{◌≡◌, ◌+◌, ℕ, List, ◌∷◌, ◌++◌, length, All};
ghost use Rattle.st_tokens.specs.Stream.{◌++>◌, Lexeme, Stream, text_stream, first_place, IsRising, AreThere, shifted, IsSpelled, written, placed};

/// The tokens of a text stand in rising order, and the first fault or the end behind them.
pub fn starts_rise()
    ensures { (text : List ℕ) → IsRising (text_stream text) }
{}

/// Each token is what stands at the front of the text from its place on, and its bytes are the slice there.
pub fn tokens_are_slices()
    ensures { (text : List ℕ) → AreThere text (text_stream text) }
{}

/// Where the bytes so far, `xs`, end before the place of `rest`, they have the tokens before it also if the text goes on
/// otherwise behind a line feed, as with a shortest text that completes them. So what is said of token lists that begin
/// so holds of texts that begin so.
pub fn texts_go_on()
    ensures { (xs ys us : List ℕ) (ts : List Lexeme) (rest : Stream) → text_stream (xs ++ ys) ≡ ts ++> rest → first_place rest ≡ length xs → text_stream (xs ++ 10 ∷ us) ≡ ts ++> shifted (length xs + 1) (text_stream us) }
{}

/// Tokens that are spelled by their bytes are, but for their places, the tokens of a text.
pub fn tokens_are_written()
    ensures { (ts : List Lexeme) → All IsSpelled ts → text_stream (written ts) ≡ placed 0 ts }
{}
