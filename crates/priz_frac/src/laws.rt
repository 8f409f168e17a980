//! Laws of lowest terms.
ghost use Rattle.std.specs.Prelude.{◌≡◌, ◌≢◌, ◌↔◌, ◌<◌, ℕ, pos};
ghost use Rattle.std.specs.Int.{IsGcd};
ghost use Rattle.std.specs.Ordering.{int_eq};
ghost use Rattle.priz_frac.specs.Arithmetic.{sum_of, difference_of, product_of, quotient_of, negative_of};
ghost use Rattle.priz_frac.specs.Ratio.{Ratio, IsSame};
ghost use Rattle.priz_frac.specs.Gcd.{gcd};
ghost use Rattle.priz_frac.specs.Lowest.{low, IsLowest};
ghost use Rattle.priz_frac.specs.Order.{order_of};

/// Each fraction has one form in lowest terms, by which it is told from all others.
pub fn fractions_have_one_form()
    ensures divisor { (a b : ℕ) → IsGcd a b (gcd a b) }
    ensures lowest { (x : Ratio) → 0 < x.den → IsLowest (low x) }
    ensures same { (x : Ratio) → 0 < x.den → IsSame (low x) x }
    ensures one { (x y : Ratio) → 0 < x.den → 0 < y.den → (IsSame x y ↔ (low x ≡ low y)) }
{}

/// What an operation gives depends on the lowest terms of its operands alone.
pub fn operations_go_by_lowest_terms()
    ensures sum { (x y : Ratio) → 0 < x.den → 0 < y.den → low (sum_of (low x) (low y)) ≡ low (sum_of x y) }
    ensures difference { (x y : Ratio) → 0 < x.den → 0 < y.den → low (difference_of (low x) (low y)) ≡ low (difference_of x y) }
    ensures product { (x y : Ratio) → 0 < x.den → 0 < y.den → low (product_of (low x) (low y)) ≡ low (product_of x y) }
    ensures quotient { (x y : Ratio) → 0 < x.den → 0 < y.den → y.num ≢ pos 0 → low (quotient_of (low x) (low y)) ≡ low (quotient_of x y) }
    ensures negative { (x : Ratio) → 0 < x.den → low (negative_of (low x)) ≡ low (negative_of x) }
    ensures order { (x y : Ratio) → 0 < x.den → 0 < y.den → order_of (low x) (low y) ≡ order_of x y }
    ensures zero_test { (x : Ratio) → 0 < x.den → int_eq (low x).num (pos 0) ≡ int_eq x.num (pos 0) }
{}

/// A difference undoes a sum, and a quotient a product, and the other way round.
pub fn operations_are_undone()
    ensures sum { (x y : Ratio) → 0 < x.den → 0 < y.den
        → low (difference_of (sum_of x y) y) ≡ low x }
    ensures difference { (x y : Ratio) → 0 < x.den → 0 < y.den
        → low (sum_of (difference_of x y) y) ≡ low x }
    ensures product { (x y : Ratio) → 0 < x.den → 0 < y.den → y.num ≢ pos 0
        → low (quotient_of (product_of x y) y) ≡ low x }
    ensures quotient { (x y : Ratio) → 0 < x.den → 0 < y.den → y.num ≢ pos 0
        → low (product_of (quotient_of x y) y) ≡ low x }
    ensures negative { (x : Ratio) → low (negative_of (negative_of x)) ≡ low x }
{}
