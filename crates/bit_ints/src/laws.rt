ghost use Rattle.std.specs.Prelude.{◌≡◌, ℤ};
ghost use Rattle.bit_ints.specs.Dividing.{AreFloored};

/// There is at most one quotient that is rounded down, and one remainder of it.
pub fn one_division()
    ensures quotient { (a b q r p s : ℤ) → AreFloored a b q r → AreFloored a b p s → q ≡ p }
    ensures remainder { (a b q r p s : ℤ) → AreFloored a b q r → AreFloored a b p s → r ≡ s }
{}
