/// What is known of a number's sign.
#[derive(Clone, Copy, PartialEq, Eq, Debug)]
pub enum Sign {
    /// Nothing.
    Unknown,
    /// It is 0 or above.
    NotNegative,
    /// It is 0 or below.
    NotPositive,
    /// It is 0.
    Zero,
}
