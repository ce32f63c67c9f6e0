//! What ids come from.
ghost use Rattle.std.specs.Prelude.{◌≡◌, [], ◌∷◌, ◌++◌, IfOk, OnOk, All, map, flat_map};
ghost use Rattle.wv_resolve.specs.declared.source.Source.{Source};
ghost use Rattle.wv_resolve.specs.Presence.{builtin_presence, mod_presences, present_ids};
ghost use Rattle.wv_resolve.specs.Holding.{source_presences, IsRead};

use std::alloc::Global;
use wv_base::{Memory, Text};
use wv_mod::ModInfo;
use wv_version::Version;

/// The path of the description of the game, which names what is built in.
const GAME: &str = "game/game.json";

/// The game, something built in, or a mod: one version under one or more ids.
#[derive(Drop)]
pub(crate) struct Source<'a> {
    /// The file that names it.
    pub(crate) path: &'a str,
    pub(crate) id: &'a Text,
    pub(crate) provides: &'a [Text],
    /// Its version as that file has it.
    pub(crate) text: &'a Text,
    pub(crate) version: Version,
}

impl<'a> Source<'a> {
    fn of_builtin(alloc: Global, entry: &'a (Text, Text)) -> Result<Source<'a>, Memory>
        ensures presence { IfOk result (λ source. source_presences source ≡ builtin_presence entry.now ∷ []) }
        ensures read { IfOk result IsRead }
    {
        Ok(Source {
            path: GAME,
            id: &entry.0,
            provides: &[],
            text: &entry.1,
            version: Version::read(alloc, &entry.1)?,
        })
    }

    fn of_mod(alloc: Global, info: &'a ModInfo) -> Result<Source<'a>, Memory>
        ensures presence { IfOk result (λ source. source_presences source ≡ mod_presences info.now) }
        ensures read { IfOk result IsRead }
    {
        Ok(Source {
            path: info.path.as_str(),
            id: &info.id,
            provides: info.provides.as_slice(),
            text: &info.version,
            version: Version::read(alloc, &info.version)?,
        })
    }
}

/// The game with what is built in, then the mods.
pub(crate) fn sources<'a>(
    alloc: Global,
    builtin: &'a [(Text, Text)],
    loaded: &'a [ModInfo],
) -> Result<Vec<Source<'a>>, Memory>
    ensures present { IfOk result (λ sources.
        flat_map source_presences sources.items ≡ present_ids builtin.now loaded.now) }
    ensures read { IfOk result (λ sources. All IsRead sources.items) }
{
    let mut sources = builtin_sources(alloc, builtin)?;
    add_mods(alloc, &mut sources, loaded)?;
    Ok(sources)
}

fn builtin_sources<'a>(
    alloc: Global,
    builtin: &'a [(Text, Text)],
) -> Result<Vec<Source<'a>>, Memory>
    ensures present { IfOk result (λ sources.
        flat_map source_presences sources.items ≡ map builtin_presence builtin.now) }
    ensures read { IfOk result (λ sources. All IsRead sources.items) }
{
    let mut sources = Vec::new(alloc);
    for entry in builtin {
        sources.push(Source::of_builtin(alloc, entry)?)?;
    }
    Ok(sources)
}

fn add_mods<'a>(
    alloc: Global,
    sources: &mut Vec<Source<'a>>,
    loaded: &'a [ModInfo],
) -> Result<(), Memory>
    requires { All IsRead sources.old.items }
    ensures present { OnOk result (flat_map source_presences sources.new.items
        ≡ flat_map source_presences sources.old.items ++ flat_map mod_presences loaded.now) }
    ensures read { OnOk result (All IsRead sources.new.items) }
{
    for info in loaded {
        sources.push(Source::of_mod(alloc, info)?)?;
    }
    Ok(())
}
