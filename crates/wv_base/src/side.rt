//! The side of the game.

/// The side that is loaded: the client, or the dedicated server (Fabric Loader, "environment").
#[derive(Clone, Copy, Debug, PartialEq, Eq)]
pub enum Side {
    Client,
    Server,
}
