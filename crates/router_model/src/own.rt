// The state of the own locators in two numbers.

/// Which own locators are up, and how many changes of own locators were made.
#[derive(Clone, Copy, Debug, PartialEq, Eq)]
pub struct Own {
    /// Bit i is set where own locator i is up, in order of address.
    pub ups: u32,
    /// The number of changes of own locators made.
    pub steps: u32,
}
