//! The tree of a text: from its tokens to the words of its logical lines, the phases in which a text may be refused,
//! and the module that its lines spell.
#![tactic(auto)]

ghost use Rattle.std.specs.Prelude.{◌≡◌, ◌≤◌, ℕ, List, [], Some, Result, All, Contains};
ghost use Rattle.spec_trees.specs.Stmt.{Line};
ghost use Rattle.spec_trees.specs.Module.{Block};
ghost use Rattle.spec_grammar.specs.Words.{Word, line_of};
ghost use Rattle.spec_grammar.specs.Headers.{IsLine};
ghost use Rattle.spec_grammar.specs.Blocks.{PlacedLine, IsModule};
ghost use Rattle.spec_syntax.specs.Lines.{WordLine};
ghost use Rattle.spec_syntax.specs.Placement.{number_of, placement_faults, smallest};
ghost use Rattle.spec_syntax.specs.Phases.{Misfit, IsParsed, parsed};

/// Lines of which none is misplaced spell the body of a module.
pub fn placed_lines_are_a_module()
    ensures { (ps : List PlacedLine) → placement_faults ps ≡ [] → (b : Block) × IsModule ps b }
{}

/// All lines have an outcome, which is the one that the phases compute.
pub fn every_text_has_an_outcome()
    ensures { (ls : List WordLine) → IsParsed ls (parsed ls) }
{}

/// Lines have no other outcome than the one that the phases compute.
pub fn one_outcome()
    ensures { (ls : List WordLine) (r : Result Block Misfit) → IsParsed ls r → r ≡ parsed ls }
{}

/// The number of a line is that of the first of its words.
pub fn numbers_are_of_first_words()
    ensures { (s : List Word) (l : Line) → IsLine s l → number_of l ≡ line_of s }
{}

/// The smallest number of a list stands in it, and none there is smaller.
pub fn smallest_is_least()
    ensures { (ns : List ℕ) (n : ℕ) → smallest ns ≡ Some n → Contains ns n × All (λ m. n ≤ m) ns }
{}
