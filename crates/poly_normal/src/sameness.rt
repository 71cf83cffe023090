/// Whether two expressions are equal as rational functions.
#[derive(Clone, Copy, PartialEq, Eq, Debug)]
pub enum Sameness {
    /// The cross products of their numerators and denominators are equal polynomials.
    Same,
    /// They are not.
    Differs,
    /// A limit is passed on the way, so it is not known.
    TooLarge,
}
