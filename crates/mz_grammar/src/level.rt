// The levels of binary operators.

/// A level of binary operators. They are numbered from 1, the loosest, to 12.
#[derive(Clone, Copy, Debug, PartialEq, Eq)]
pub enum Level {
    /// `<->`, to the left
    Iff = 1,
    /// `->` and `<-`, to the left
    Imp,
    /// `\/` and `xor`, to the left
    Or,
    /// `/\`, to the left
    And,
    /// `<`, `>`, `<=`, `>=`, `=`, `==` and `!=`, one at most
    Compare,
    /// `in`, `subset` and `superset`, one at most
    Member,
    /// `union`, `diff` and `symdiff`, to the left
    Union,
    /// `..`, one at most
    Range,
    /// `+` and `-`, to the left
    Sum,
    /// `*`, `div`, `mod` and `intersect`, to the left
    Product,
    /// `^`, to the left
    Power,
    /// `++`, to the right
    Concat,
}
