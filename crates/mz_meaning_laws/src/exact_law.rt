// Sums, products and powers of var arguments, beside those of par ones.

ghost use Rattle.std.specs.Prelude.{◌≡◌, true};
ghost use Rattle.mz_value.specs.Shown.{Names};
ghost use Rattle.mz_operations.specs.declared.row.Row.{Row};
ghost use Rattle.mz_operations.specs.Arguments.{Arguments};
ghost use Rattle.mz_operations.specs.Values.{value};
ghost use Rattle.mz_meaning.specs.Exact.{exact_value};
ghost use Rattle.mz_meaning_laws.specs.Limits.{stays_in_limit};

/// Does nothing: its contract says that a sum, a product or a power of which no partial result
/// leaves the limit, or the last one alone, is of var arguments what it is of par ones; and so is
/// every other row.
pub fn folds_within_the_limit_are_exact()
    ensures { (names : Names) (r : Row) (args : Arguments) → stays_in_limit r args ≡ true → exact_value names r args ≡ value names r args }
{}
