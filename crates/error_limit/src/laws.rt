// What the definition says by itself.
ghost use Rattle.std.specs.Prelude.{◌≡◌, List, ℕ, Bool};
ghost use Rattle.error_limit.specs.Limits.{IsMarked};

/// A list of times has one list of marks.
pub fn one_marking()
    ensures { (rate : ℕ) (times : List ℕ) (marks others : List Bool) → IsMarked rate times marks →
        IsMarked rate times others → marks ≡ others }
{}
