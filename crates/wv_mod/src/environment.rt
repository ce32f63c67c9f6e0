//! Environments.
ghost use Rattle.std.specs.Prelude.{◌≡◌, ◌≢◌, ◌↔◌, IsTrue, MatchOption};
ghost use Rattle.wv_mod.specs.declared.environment.Environment.{Environment};
ghost use Rattle.wv_mod.specs.Environment.{environment_name, IsFor};

use wv_base::Side;

/// Where a mod, or a configuration of it, is loaded (fabric.mod.json, `environment`).
#[derive(Clone, Copy, Debug, PartialEq, Eq)]
pub enum Environment {
    /// `*`
    Both,
    /// `client`
    Client,
    /// `server`
    Server,
}

impl Environment {
    /// The environment of this name.
    pub(crate) fn read(text: &str) -> Option<Environment>
        ensures { MatchOption result
            ((environment : Environment) → text.now ≢ environment_name environment)
            (λ environment. text.now ≡ environment_name environment) }
    {
        match text {
            "*" => Some(Environment::Both),
            "client" => Some(Environment::Client),
            "server" => Some(Environment::Server),
            _ => None,
        }
    }

    /// Whether what has this environment is loaded on the side.
    pub fn is_for(self, side: Side) -> bool
        ensures { IsTrue result ↔ IsFor side self }
    {
        match self {
            Environment::Both => true,
            Environment::Client => side == Side::Client,
            Environment::Server => side == Side::Server,
        }
    }
}
