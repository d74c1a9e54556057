/// What a user is told of a fault. The texts end without a newline; some have several lines, of at
/// most 79 columns.
#[derive(Clone, Copy)]
pub struct Page {
    /// What the fault is: one sentence, on one line.
    pub meaning: &'static str,
    /// The rule that is broken.
    pub rule: &'static str,
    /// What to do.
    pub advice: &'static str,
}
