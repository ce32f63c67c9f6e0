//! Texts cut at a mark.
ghost use Rattle.std.specs.Prelude.{◌≡◌, ◌≢◌, ◌<◌, List, ◌∷◌, ℕ, MatchOption};
ghost use Rattle.std.specs.Option.{option_copied};
ghost use Rattle.wv_version.specs.Cut.{IsCut};

/// What stands before the first `mark`, and what stands behind it where there is one.
pub(crate) fn cut(text: &str, mark: char) -> (&str, Option<&str>)
    requires { mark < 128 }
    ensures { IsCut mark text.now result.0.now (option_copied result.1) }
{
    match text.split_once(mark) {
        Some((front, rest)) => (front, Some(rest)),
        None => (text, None),
    }
}

/// What stands behind `mark` where the text begins with it.
pub(crate) fn behind(text: &str, mark: char) -> Option<&str>
    requires { mark < 128 }
    ensures { MatchOption result ((rest : List ℕ) → text.now ≢ mark ∷ rest)
        (λ rest. text.now ≡ mark ∷ rest.now) }
{
    text.strip_prefix(mark)
}
