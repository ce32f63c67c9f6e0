//! What the grammar and the order mean. Each law stands on a function that does nothing.
ghost use Rattle.std.specs.Prelude.{◌≡◌, ◌↔◌, ◌⊎◌, ℕ, ◌+◌, List, [], ◌∷◌, ◌++◌, Some, None, codes, slice_index};
ghost use Rattle.wv_version.specs.declared.dotted.Dotted.{Dotted};
ghost use Rattle.wv_version.specs.declared.version.Version.{Version};
ghost use Rattle.wv_version.specs.declared.relation.Relation.TheVariants.{Caret, Tilde};
ghost use Rattle.wv_version.specs.Dotted.{IsDotted, IsBuild, HasSameNumbers, IsLower, IsSame, IsAtMost, IsBetween, with_zero, least_of};
ghost use Rattle.wv_version.specs.Cut.{IsFree};
ghost use Rattle.wv_version.specs.Version.{IsVersion};
ghost use Rattle.wv_version.specs.Relation.{Holds};
ghost use Rattle.wv_version.specs.Term.{BeginsWith};

/// A text spells one version.
pub fn one_reading()
    ensures { (text : List ℕ) (v w : Version) → IsVersion text v → IsVersion text w → v ≡ w }
{}

/// A build part says nothing of the version.
pub fn build_parts()
    ensures { (text build : List ℕ) (v : Dotted) → IsDotted text v → IsFree 43 text → IsBuild build
        → IsDotted (text ++ codes "+" ++ build) v }
{}

/// "Not after" is a total preorder on dotted versions. Its ties are the versions of the same place,
/// and "before" is the rest of it. A missing number counts as 0: `1.0` has the place of `1.0.0`.
pub fn total_preorder()
    ensures reflexive { (v : Dotted) → IsAtMost v v }
    ensures transitive { (u v w : Dotted) → IsAtMost u v → IsAtMost v w → IsAtMost u w }
    ensures total { (v w : Dotted) → IsAtMost v w ⊎ IsAtMost w v }
    ensures ties { (v w : Dotted) → IsSame v w ↔ (IsAtMost v w × IsAtMost w v) }
    ensures strict { (v w : Dotted) → IsLower v w ↔ (IsAtMost w v → ⊥) }
    ensures zero { (v : Dotted) → IsSame v (with_zero v) }
{}

/// Among versions of the same numbers one with an empty pre-release part comes before all with
/// another one or none, and one without a pre-release part after all that have one.
pub fn pre_releases()
    ensures empty_is_least { (v w : Dotted) → HasSameNumbers v.numbers w.numbers
        → v.pre_release ≡ Some [] → IsLower v w ⊎ (w.pre_release ≡ Some []) }
    ensures none_is_greatest { (v w : Dotted) → HasSameNumbers v.numbers w.numbers
        → w.pre_release ≡ None → IsLower v w ⊎ (v.pre_release ≡ None) }
{}

/// What the relations and the wildcard leave in, in the order's own words: `^1.2` is from `1.2` up to
/// but without `2-`, `~1.20.1` from `1.20.1` up to but without `1.21-`, and `1.20.x` from `1.20-` up to
/// but without `1.21-`.
pub fn bounds()
    ensures caret { (v w : Dotted) → Holds Caret v w ↔ IsBetween w v
        (least_of ((slice_index w.numbers 0 + 1) ∷ [])) }
    ensures tilde { (v w : Dotted) → Holds Tilde v w ↔ IsBetween w v
        (least_of (slice_index w.numbers 0 ∷ (slice_index w.numbers 1 + 1) ∷ [])) }
    ensures wildcard { (v : Dotted) (front : List ℕ) (last : ℕ)
        → BeginsWith v.numbers (front ++ last ∷ []) ↔ IsBetween
        (least_of (front ++ last ∷ [])) v (least_of (front ++ (last + 1) ∷ [])) }
{}
