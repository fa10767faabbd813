//! Answers of an expander.
use td_desc::Description;

/// What an expander answers.
#[derive(Drop)]
pub enum Step {
    /// The next expansion's description.
    Description(Description),
    /// The next expansion clashes.
    Clash,
    /// An expansion has more than 4,096 calls and items.
    TooLarge,
    /// All expansions were given.
    End,
    /// Another expansion is left, and the budget is 0.
    Cut,
}
