//! The calls of a function within the bounds, in their order, and how calls and values are printed.
#![tactic(auto)]

ghost use Rattle.std.specs.Prelude.{◌≡◌, ℕ, ◌<◌, ◌^◌, ℤ, Some, slice_get};
ghost use Rattle.spec_calls.specs.Calls.{integers};
ghost use Rattle.spec_calls.specs.Order.{rank};

/// Each integer of the listing stands at its place in the order 0, -1, 1, -2, 2 and so on, so none is listed twice,
/// and has so many bits in two's complement: its place is below the power of two.
pub fn integers_are_in_order()
    ensures { (bits i : ℕ) (z : ℤ) → 0 < bits → slice_get (integers bits) i ≡ Some z → (rank z ≡ i) × (i < 2 ^ bits) }
{}

/// Each integer that has so many bits in two's complement, which is to say that its place in the order is below the
/// power of two, is listed at that place.
pub fn every_integer_is_listed()
    ensures { (bits : ℕ) (z : ℤ) → 0 < bits → rank z < 2 ^ bits → slice_get (integers bits) (rank z) ≡ Some z }
{}
