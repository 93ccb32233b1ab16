//! A law of directories in an arena, for the proofs of the crates above. It does nothing.
ghost use Rattle.std.specs.Prelude.{◌≡◌, ◌⊎◌, ℕ, ◌<◌, List};
ghost use Rattle.ep_base.specs.Objects.Arena as kept;
ghost use Rattle.ep_base.specs.Objects.Directory.{entries_held};

/// Puts into other groups and dropping them leave the entries as they are.
pub fn other_groups()
    ensures put { (count group tag : ℕ) (value : List ℕ) (c : kept.Contents) → (group ≡ 0) ⊎ (count < group) →
        entries_held count (kept.after (kept.put group tag value) c).objects ≡ entries_held count c.objects }
    ensures drop { (count group : ℕ) (c : kept.Contents) → (group ≡ 0) ⊎ (count < group) →
        entries_held count (kept.after (kept.drop_group group) c).objects ≡ entries_held count c.objects }
{}
