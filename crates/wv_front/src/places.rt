//! The places of classes.
ghost use Rattle.std.specs.Prelude.{◌≡◌, ℕ, List, [], ◌∷◌, ◌++◌, length, map, bytes_eq, IfOk, OnOk};
ghost use Rattle.std.specs.List.{position};
ghost use Rattle.wv_front.specs.Places.{folder_name, loaded_name};

use std::alloc::Global;
use std::collections::BTreeMap;
use wv_base::{Memory, Text};
use wv_classes::{FolderClass, LoadedClass};

/// The places of classes in their list, by their names. Of classes with one name it is the first.
#[derive(Drop)]
pub struct ClassPlaces {
    places: BTreeMap<Text, usize>,
}

impl ClassPlaces {
    ghost use Rattle.wv_front.specs.Listing.{ArePlaces};

    pub(crate) fn of_folder(alloc: Global, classes: &[FolderClass]) -> Result<ClassPlaces, Memory>
        ensures { IfOk result (ArePlaces (map folder_name classes.now)) }
    {
        let mut places = ClassPlaces::none(alloc);
        for (place, class) in classes.iter().enumerate() {
            places.add(alloc, &class.name, place)?;
        }
        Ok(places)
    }

    /// The places of classes by the names that their paths say.
    pub fn of_loaded(alloc: Global, classes: &[LoadedClass]) -> Result<ClassPlaces, Memory>
        ensures { IfOk result (ArePlaces (map loaded_name classes.now)) }
    {
        let mut places = ClassPlaces::none(alloc);
        for (place, class) in classes.iter().enumerate() {
            places.add(alloc, &class.name, place)?;
        }
        Ok(places)
    }

    fn none(alloc: Global) -> ClassPlaces
        ensures { ArePlaces [] result }
    {
        ClassPlaces {
            places: BTreeMap::new(alloc),
        }
    }

    /// Adds the class at the next place.
    fn add(&mut self, alloc: Global, name: &Text, place: usize) -> Result<(), Memory>
        ensures { (names : List (List ℕ)) → ArePlaces names self.old → place ≡ length names
            → OnOk result (ArePlaces (names ++ name.now ∷ []) self.new) }
    {
        if !self.places.contains_key(name) {
            self.places.insert(name.copy(alloc)?, place)?;
        }
        Ok(())
    }

    /// The place of the class of this name. It takes time logarithmic in the number of classes.
    pub fn place(&self, name: &Text) -> Option<usize>
        ensures { (names : List (List ℕ)) → ArePlaces names self.now
            → result ≡ position (bytes_eq name.now) names }
    {
        self.places.get(name).copied()
    }
}
