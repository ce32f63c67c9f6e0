//! Paths at which something stands.
ghost use Rattle.std.specs.Prelude.{◌≡◌, ℕ, List, [], ◌∷◌, ◌++◌, OnOk};
ghost use Rattle.wv_form.specs.Placing.{TellsPlaces, is_elsewhere, place_of, placed};

use std::collections::BTreeMap;
use wv_base::Memory;

/// Where something stands: at this path, and perhaps at others.
#[derive(Clone, Copy)]
pub(crate) struct Place<'a> {
    /// The path at which it stood first.
    pub first: &'a str,
    /// Whether it stands at another path too.
    pub several: bool,
}

/// Where something stands that stood there so far, and now stands at this path.
fn placed<'a>(so_far: Option<Place<'a>>, path: &'a str) -> Place<'a>
    ensures { result ≡ placed so_far.entry path.entry }
{
    match so_far {
        None => Place {
            first: path,
            several: false,
        },
        Some(place) => Place {
            first: place.first,
            several: place.several || place.first != path,
        },
    }
}

/// Tells the table that something stands at this path.
pub(crate) fn add_place<'a>(
    table: &mut BTreeMap<&'a str, Place<'a>>,
    key: &'a str,
    path: &'a str,
) -> Result<(), Memory>
    ensures { (pairs : List (List ℕ × List ℕ)) → TellsPlaces pairs table.old
        → OnOk result (TellsPlaces (pairs ++ (key.now, path.now) ∷ []) table.new) }
{
    let place = placed(table.get(key).copied(), path);
    table.insert(key, place)?;
    Ok(())
}

/// Whether something stands at another path than this one.
pub(crate) fn stands_elsewhere(table: &BTreeMap<&str, Place>, key: &str, path: &str) -> bool
    ensures { result ≡ is_elsewhere (place_of table.now key.now) path.now }
{
    match table.get(key) {
        None => false,
        Some(place) => place.several || place.first != path,
    }
}
