/// How many variables a program may declare.
pub const VARIABLES: u32 = 64;

/// How many processes a program may have.
pub const PROCESSES: usize = 16;

/// How many statements a program may have, those inside groups included.
pub const STATEMENTS: u32 = 400;

/// How many statements may stand round a statement.
pub const ROUND: u32 = 32;
