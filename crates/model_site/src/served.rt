// The server's answers to a submission.

/// Two active ranges that conflict, each from its first position to the position after its last, in
/// the list that both transactions apply to as they are joined so far.
#[derive(Clone, Copy, Debug, PartialEq, Eq)]
pub struct Clash {
    /// The committed transaction's.
    pub committed: (usize, usize),
    /// The submitted transaction's.
    pub submitted: (usize, usize),
}

/// The outcome of a submission.
#[derive(Clone, Copy, Debug, PartialEq, Eq)]
pub struct Served {
    /// How many entries were accepted: those before the first conflict, or all.
    pub accepted: usize,
    /// How many entries the submission has.
    pub total: usize,
    /// The first conflict, if there is one.
    pub clash: Option<Clash>,
}
