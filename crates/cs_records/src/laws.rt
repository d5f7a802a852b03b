ghost use Rattle.std.specs.Prelude.{◌≡◌, ◌∷◌, ℕ, List, None, map};
ghost use Rattle.cs_records.specs.declared.captured.Captured.{Captured};
ghost use Rattle.cs_records.specs.Group.{IsRun, items_of, record_of};
ghost use Rattle.cs_records.specs.Told.{changes_told, record_fault};

/// A law: the record of a run of captured changes tells just them, in their order, and its mods are
/// changes.
pub fn runs_are_told()
    ensures items { (sequence : ℕ) (first : Captured) (more after : List Captured) → IsRun first more → items_of (record_of sequence first (first ∷ more) after) ≡ first ∷ more }
    ensures changes { (sequence : ℕ) (first : Captured) (more after : List Captured) → IsRun first more → changes_told (record_of sequence first (first ∷ more) after) ≡ map (λ c. c.change) (first ∷ more) }
    ensures sound { (sequence : ℕ) (first : Captured) (more after : List Captured) → IsRun first more → record_fault (record_of sequence first (first ∷ more) after) ≡ None }
{}
