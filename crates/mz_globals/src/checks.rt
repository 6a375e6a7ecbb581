// What a call of a global costs, and what it is refused for, as data.

/// Consecutive arguments: the place of the first, from 0, and how many there are.
#[derive(Clone, Copy)]
pub struct Places {
    pub first: u64,
    pub count: u64,
}

/// What a call costs. A size is the number of elements of an array, or of an integer that isn't
/// negative the integer.
#[derive(Clone, Copy)]
pub enum Cost {
    /// 1 and the sizes of these arguments.
    Elements(Places),
    /// 1 and the square of the sum of the sizes of these arguments.
    Pairs(Places),
    /// 1 and for each element of the first argument one more than the product of the sizes of the
    /// second and the third.
    Steps,
}

/// Which arrays have to fit each other.
#[derive(Clone, Copy)]
pub enum Fit {
    /// None.
    Free,
    /// These have one length.
    Alike(Places),
    /// The second argument has as many columns as the first is long.
    Columns,
    /// The fourth argument has as many rows as the second argument says, and as many columns as
    /// the third says.
    Automaton,
}

/// Sums of which no bound may leave the limit.
#[derive(Clone, Copy)]
pub enum Sums {
    /// None.
    Nothing,
    /// Of two arrays, by their places: each element of the one and the element of the other.
    Both(u64, u64),
    /// Of all elements of an array.
    Whole(u64),
    /// Of each list of as many consecutive elements of an array as the first argument here says.
    Windows { length: u64, items: u64 },
}

/// What a call costs, and what it is refused for, in the order of the tests.
#[derive(Clone, Copy)]
pub struct Checks {
    pub cost: Cost,
    pub fit: Fit,
    /// No lower bound of these arguments or of their elements is negative.
    pub nonnegative: Places,
    pub sums: Sums,
    pub more_sums: Sums,
}

/// Why a call is refused.
#[derive(Clone, Copy, PartialEq, Eq)]
pub enum Refusal {
    /// Arrays don't fit each other.
    Misfit,
    /// This lower bound is negative.
    Negative(i64),
    /// This bound of a sum lies outside the limit.
    Outside(i128),
}
