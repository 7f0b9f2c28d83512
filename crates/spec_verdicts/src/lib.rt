//! The verdict of each condition, and the whole run of the program.
#![tactic(auto)]

ghost use Rattle.std.specs.Prelude.{◌≡◌, ◌⊎◌, ℕ, Bool, true, false, List, Option, Some, slice_get};
ghost use Rattle.std.specs.List.{list_all};
ghost use Rattle.spec_first_trees.specs.declared.LimitKind.{LimitKind};
ghost use Rattle.spec_first_trees.specs.Bounds.{Bounds};
ghost use Rattle.spec_first_trees.specs.Program.{Function, Condition};
ghost use Rattle.spec_calls.specs.Calls.{Call, calls};
ghost use Rattle.spec_verdicts.specs.Breaking.{Fault, broken, limited, is_unmet};
ghost use Rattle.spec_verdicts.specs.Verdicts.{Error, NotConfirmed, Unmet, Confirmed, verdict};
ghost use Rattle.spec_verdicts.specs.Firsts.{FirstAt, Nowhere};
ghost use Rattle.spec_verdicts.specs.Report.{off_out, targets_total};
ghost use Rattle.spec_verdicts.specs.Statuses.{EachTarget, SomeTarget, Passes, Fails, IsRefused, SomeReadFails};

/// The greatest number of bytes that a file may have: 1 MiB.
pub const READ_LIMIT: u64 = 1_048_576;

/// Where the verdict is an error, its call is the first within the bounds that breaks the condition, and its fault is
/// what breaks it there.
pub fn an_error_is_the_first_that_breaks()
    ensures { (f : Function) (k : Condition) (b : Bounds) (c : Call) (fault : Fault) → verdict f k b ≡ Error c fault → FirstAt (broken f k b) (calls f b) c fault }
{}

/// Where the verdict is not confirmed, no call within the bounds breaks the condition, and its call is the first that
/// is limited for it, by that limit.
pub fn not_confirmed_is_the_first_limited()
    ensures { (f : Function) (k : Condition) (b : Bounds) (c : Call) (kind : LimitKind) → verdict f k b ≡ NotConfirmed c kind → Nowhere (broken f k b) (calls f b) × FirstAt (limited f k b) (calls f b) c kind }
{}

/// Where the verdict is that the preconditions are unmet, no call within the bounds meets them.
pub fn unmet_means_that_no_call_meets_them()
    ensures { (f : Function) (k : Condition) (b : Bounds) → verdict f k b ≡ Unmet → (i : ℕ) (d : Call) → slice_get (calls f b) i ≡ Some d → is_unmet f b d ≡ true }
{}

/// Where the verdict is confirmed, no call within the bounds breaks the condition or is limited for it, and some call
/// meets the preconditions.
pub fn confirmed_means_every_call()
    ensures { (f : Function) (k : Condition) (b : Bounds) → verdict f k b ≡ Confirmed → Nowhere (broken f k b) (calls f b) × Nowhere (limited f k b) (calls f b) × (list_all (is_unmet f b) (calls f b) ≡ false) }
{}

/// Whether all results are written or the errors alone shows on out and nowhere else: what stands
/// on err and the status are the same.
pub fn all_results_show_on_out_alone()
    ensures { (b : Bounds) (names : List (List ℕ)) (files : List (List ℕ × List ℕ)) (left : Option ℕ) → off_out (targets_total true b names files left) ≡ off_out (targets_total false b names files left) }
{}

/// Where the status of the targets is 0, each of them is admitted, and no condition of it has an error.
pub fn status_0_means_that_each_target_passes()
    ensures { (all : Bool) (b : Bounds) (names : List (List ℕ)) (files : List (List ℕ × List ℕ)) (left : Option ℕ) → (targets_total all b names files left).status ≡ 0 → EachTarget (Passes b files) names }
{}

/// Where the status of the targets is 1, each of them is admitted, and some target has a condition with an error.
pub fn status_1_means_that_some_target_fails()
    ensures { (all : Bool) (b : Bounds) (names : List (List ℕ)) (files : List (List ℕ × List ℕ)) (left : Option ℕ) → (targets_total all b names files left).status ≡ 1 → EachTarget (λ name. Passes b files name ⊎ Fails b files name) names × SomeTarget (Fails b files) names }
{}

/// Where the status of the targets is 2, some target is refused.
pub fn status_2_means_that_some_target_is_refused()
    ensures { (all : Bool) (b : Bounds) (names : List (List ℕ)) (files : List (List ℕ × List ℕ)) (left : Option ℕ) → (targets_total all b names files left).status ≡ 2 → SomeTarget (IsRefused b files) names }
{}

/// Where the status of the targets is 4, the read of some target fails: the files do not hold its name, or the read is
/// the one that is made to fail.
pub fn status_4_means_that_some_read_fails()
    ensures { (all : Bool) (b : Bounds) (names : List (List ℕ)) (files : List (List ℕ × List ℕ)) (left : Option ℕ) → (targets_total all b names files left).status ≡ 4 → SomeReadFails files names left }
{}
