ghost use Rattle.std.specs.Prelude.{◌≡◌, ◌<◌, Bool, List, length};
ghost use Rattle.bit_gates.specs.declared.lit.Gate.{Gate};
ghost use Rattle.bit_gates.specs.declared.lit.Lit.{Lit};
ghost use Rattle.bit_gates.specs.Formulas.{Extends, value_of, and_lit, and_gates};

/// What an arena made keeps its formula, whatever gates come behind it.
pub fn value_kept()
    ensures { (old new : List Gate) (bits : List Bool) (a : Lit) → Extends old new → a.place < length old → value_of new bits a ≡ value_of old bits a }
{}

/// A pair of literals that was seen gives the same literal again, in either order.
pub fn seen_again()
    ensures same { (gates later : List Gate) (a b : Lit) → Extends (and_gates gates a b) later → and_lit later a b ≡ and_lit gates a b }
    ensures swapped { (gates later : List Gate) (a b : Lit) → Extends (and_gates gates a b) later → and_lit later b a ≡ and_lit gates a b }
{}
