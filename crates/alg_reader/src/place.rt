//! Places of a text, by what stood before them.

/// Which statements may stand at a place, by what stood before it. Declarations and goals may stand
/// at each.
#[derive(Clone, Copy, PartialEq, Eq, Debug)]
pub enum Place {
    /// A file without answers.
    Plain,
    /// The start of a file with answers.
    Start,
    /// Behind a goal whose answer is to come.
    AfterGoal,
    /// Among the lines of a certificate.
    Lines,
    /// Among the steps of a certificate.
    Steps,
    /// Among the lines of a certificate of the second format.
    LinesTwo,
    /// Among the steps of a certificate of the second format.
    StepsTwo,
}
