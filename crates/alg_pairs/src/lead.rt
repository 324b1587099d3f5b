//! A line's lead.

use alg_mono::Mono;

/// A line with its lead.
#[derive(Debug, Drop)]
pub struct Lead {
    pub line: u32,
    pub lead: Mono,
}
