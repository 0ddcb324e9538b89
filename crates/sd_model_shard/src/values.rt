ghost use Rattle.std.specs.Prelude.{◌≡◌, ◌↔◌, ℕ, ◌+◌, ◌*◌, ◌<◌, ◌≤◌, ℤ, pos, negsuc, ◌≤ℤ◌, List, [], ◌∷◌, ◌++◌, length, All, sum_by, count_by, Some, true};
ghost use Rattle.std.specs.Ordering.{int_cmp};
ghost use Rattle.std.specs.List.Sorted.{IsPermutation, IsSorted};
ghost use Rattle.sd_model_text.specs.Numbers.{Limit, Below, ascends};
ghost use Rattle.sd_model_shard.specs.Values.{sorted, first, last, mean, spread, deviation, part, pct, is_below, bins};

/// A list in order has the values of the list, each as often, and no other list in order has.
pub fn lists_are_sorted()
    ensures permutation { (values : List ℤ) → IsPermutation values (sorted values) }
    ensures order { (values : List ℤ) → IsSorted int_cmp (sorted values) }
    ensures only { (values ys : List ℤ) → IsPermutation values ys → IsSorted int_cmp ys → ys ≡ sorted values }
{}

/// The mean of values in order lies between the least and the greatest.
pub fn means_lie_between()
    ensures least { (values : List ℤ) → 0 < length values → IsSorted int_cmp values → first values ≤ℤ mean values }
    ensures greatest { (values : List ℤ) → 0 < length values → IsSorted int_cmp values → mean values ≤ℤ last values }
{}

/// The standard deviation is the largest number whose square is at most the mean of the squared distances from the rounded
/// mean. It is 0 where all values are equal, and besides only where that mean is below 1, as it is of 0 and 0.000001.
pub fn deviations_are_largest()
    ensures at_most { (values : List ℤ) → 0 < length values → length values * (deviation values * deviation values) ≤ spread values }
    ensures largest { (values : List ℤ) → 0 < length values → spread values < length values * ((deviation values + 1) * (deviation values + 1)) }
    ensures only { (values : List ℤ) (s : ℕ) → length values * (s * s) ≤ spread values → spread values < length values * ((s + 1) * (s + 1)) → deviation values ≡ s }
    ensures equal { (values : List ℤ) (x : ℤ) → 0 < length values → All (λ v. v ≡ x) values → deviation values ≡ 0 }
    ensures zero { (values : List ℤ) → 0 < length values → (deviation values ≡ 0) ↔ (spread values < length values) }
{}

/// At a threshold of 100, and of -100, the part is the whole.
pub fn parts_of_hundred_are_whole()
    ensures least { (values : List ℤ) → 0 < length values → pct (pos 100000000) values ≡ Some (part (pos 100000000) values) }
    ensures greatest { (values : List ℤ) → 0 < length values → pct (negsuc 99999999) values ≡ Some (part (negsuc 99999999) values) }
{}

/// The bins of limits that ascend from 0 count each value below the last limit once.
pub fn bins_add_up()
    ensures { (limits : List Limit) (l : Limit) (values : List ℤ) → ascends (Below (pos 0) ∷ (limits ++ l ∷ [])) ≡ true → All (λ v. pos 0 ≤ℤ v) values
        → sum_by (λ b. b.count) (bins (limits ++ l ∷ []) values) ≡ count_by (λ v. is_below v l) values }
{}
