/// How many parentheses, `~`, unary `-` and `->` may be open at a token of a formula.
pub const LEVELS: u32 = 32;
