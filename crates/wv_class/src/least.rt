//! The least of places.
ghost use Rattle.std.specs.Prelude.{◌≡◌};
ghost use Rattle.wv_code.specs.Least.{lesser, unless};

/// The lesser of two places, where there are any.
pub(crate) fn lesser(one: Option<usize>, other: Option<usize>) -> Option<usize>
    ensures { result ≡ lesser one other }
{
    match (one, other) {
        (Some(a), Some(b)) => Some(a.min(b)),
        (Some(a), None) => Some(a),
        (None, b) => b,
    }
}

/// The place, unless what is asked there holds.
pub(crate) fn unless(holds: bool, place: usize) -> Option<usize>
    ensures { result ≡ unless holds place }
{
    if holds { None } else { Some(place) }
}
