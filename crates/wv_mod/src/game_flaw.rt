//! What may be wrong with the description of the game.
ghost use Rattle.std.specs.Prelude.{◌≡◌, IfOk};
ghost use Rattle.wv_mod.specs.GameFlaw.{game_bad, game_found};

use std::alloc::Global;
use wv_base::{Broken, Memory, Rule, Text};

/// The path of the description of the game.
const GAME_JSON: &str = "game/game.json";

/// What is wrong with the description of the game, in the order in which it is looked at.
#[derive(Clone, Copy, Debug, PartialEq, Eq)]
pub enum GameFlaw {
    /// The bytes are no JSON object.
    Json,
    /// The key `id` isn't as it has to be; and so on for the others.
    Id,
    Version,
    Main,
    Builtin,
}

impl GameFlaw {
    /// What the refusal says was found: the key, or `json`.
    fn found(self) -> &'static str
        ensures { result.now ≡ game_found self }
    {
        match self {
            GameFlaw::Json => "json",
            GameFlaw::Id => "id",
            GameFlaw::Version => "version",
            GameFlaw::Main => "main",
            GameFlaw::Builtin => "builtin",
        }
    }

    /// The refusal of the description.
    pub(crate) fn broken(self, alloc: Global) -> Result<Broken, Memory>
        ensures { IfOk result (λ broken. broken ≡ game_bad self) }
    {
        let mut broken = Broken::at_file(alloc, Rule::GameBad, GAME_JSON)?;
        broken.found = Text::from_str(alloc, self.found())?;
        Ok(broken)
    }
}

/// Why the reading of the description of the game stops.
#[derive(Clone, Copy, Debug)]
pub(crate) enum GameStop {
    Flaw(GameFlaw),
    Memory,
}

impl From<Memory> for GameStop {
    ghost use Rattle.wv_mod.specs.declared.game_flaw.GameStop.TheVariants as stops;

    ghost from_gives = { λ _ e. e ≡ stops.Memory };

    fn from(_error: Memory) -> GameStop {
        GameStop::Memory
    }
}
