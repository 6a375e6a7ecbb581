// What is true of all places.

ghost use Rattle.std.specs.Prelude.{◌≡◌, ℕ, ℤ, List, ◌<◌, ◌↔◌, IsSome, IsTrue};
ghost use Rattle.std.specs.List.{AllZip};
ghost use Rattle.mz_index.specs.Places.{count_of, is_inside, place_of};

/// Does nothing: its contract says that indices have a place exactly where there are as many as
/// ranges and each lies inside its own, that each place lies below the count, and that different
/// indices inside the ranges have different places.
pub fn places_are_distinct()
    ensures inside { (ranges : List (ℤ × ℤ)) (at : List ℤ) → IsSome (place_of ranges at) ↔ AllZip (λ range index. IsTrue (is_inside range index)) ranges at }
    ensures below { (ranges : List (ℤ × ℤ)) (at : List ℤ) (place : ℕ) → place_of ranges at ≡ Some place → place < count_of ranges }
    ensures distinct { (ranges : List (ℤ × ℤ)) (at others : List ℤ) (place : ℕ) → place_of ranges at ≡ Some place → place_of ranges others ≡ Some place → at ≡ others }
{}
