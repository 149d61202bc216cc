//! The limits of schemas, statements, plans, tuple files and dumps: how many of each there may be
//! at most.

/// Streams of a schema.
pub const MOST_STREAMS: usize = 8;

/// Columns of a stream or of a result.
pub const MOST_COLUMNS: usize = 32;

/// Bytes of a name.
pub const MOST_BYTES: usize = 32;

/// Rows of a window, and rows from one window's begin to the next one's: SIZE and ADVANCE.
pub const MOST_ROWS: u128 = 65_536;

/// Windows that are open at once, each with a copy of the body.
pub const MOST_COPIES: u128 = 64;

/// Groups of a stream: GROUPS.
pub const MOST_GROUPS: u128 = 256;

/// Windows that are open at once where each group has its own, each with a copy of the body.
pub const MOST_WINDOWS: u128 = 256;

/// Weights of a weighted sum.
pub const MOST_WEIGHTS: usize = 64;

/// The weight of a plan with its output.
pub const MOST_WEIGHT: u64 = 262_144;

/// Statements of one text.
pub const MOST_STATEMENTS: usize = 8;

/// Round brackets of a statement that are open at once.
pub const MOST_BRACKETS: u32 = 32;

/// Operators, NOT and CAST of one whole expression.
pub const MOST_OPERATORS: u32 = 256;

/// UNION and CONCAT of one statement.
pub const MOST_JOINS: u32 = 64;

/// The greatest cycle that a record of a tuple file may have.
pub const LATEST_CYCLE: u128 = 10_000_000;

/// The greatest time that a dump may have.
pub const LATEST_TIME: u128 = 67_108_864;
