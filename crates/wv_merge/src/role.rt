//! What a class is in the form.

/// What a class is in the form (our own).
#[derive(Clone, Copy, Debug, PartialEq, Eq)]
pub enum Role {
    /// A class of the game.
    Game,
    /// A mixin.
    Mixin,
}
