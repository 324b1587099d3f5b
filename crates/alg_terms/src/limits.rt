//! The limits of files, one constant each. Definitions have numbers of their own in `specs/Limits.antt`,
//! to which `laws::limits` ties these.

/// The greatest literal of a term.
pub const GREATEST_LITERAL: i128 = i128::MAX;

/// The greatest exponent of a term.
pub const GREATEST_EXPONENT: u32 = 1_000;

/// The greatest depth of a term.
pub const GREATEST_DEPTH: u32 = 1_000;

/// How many parentheses may be open at once in a statement.
pub const GREATEST_OPEN: u32 = 200;

/// The least power to which a goal by nsatz may be raised.
pub const LEAST_POWER: u32 = 1;

/// The greatest power to which a goal by nsatz may be raised.
pub const GREATEST_POWER: u32 = 16;

/// The power of a goal by nsatz where none is written.
pub const USUAL_POWER: u32 = 1;

/// The least number of counted moves that a goal by nsatz may allow.
pub const LEAST_LIMIT: u32 = 0;

/// The greatest number of counted moves that a goal by nsatz may allow.
pub const GREATEST_LIMIT: u32 = 1_000_000;

/// The number of counted moves that a goal by nsatz allows where none is written.
pub const USUAL_LIMIT: u32 = 10_000;

/// The greatest number of uses of a goal.
pub const GREATEST_USES: u32 = (1 << 30) - 1;

/// The greatest number of bytes of a text that is read.
pub const GREATEST_TEXT: usize = 16_777_216;
