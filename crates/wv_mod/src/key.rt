//! Keys of a description.
ghost use Rattle.std.specs.Prelude.{◌≡◌};
ghost use Rattle.wv_mod.specs.Key.{key_name};

/// The keys of `fabric.mod.json` that have a form, in the order in which they are looked at.
#[derive(Clone, Copy, Debug, PartialEq, Eq)]
pub enum Key {
    SchemaVersion,
    Id,
    Version,
    Provides,
    Environment,
    Mixins,
    Depends,
    Breaks,
}

impl Key {
    /// The key as the file has it.
    pub fn name(self) -> &'static str
        ensures { result.now ≡ key_name self }
    {
        match self {
            Key::SchemaVersion => "schemaVersion",
            Key::Id => "id",
            Key::Version => "version",
            Key::Provides => "provides",
            Key::Environment => "environment",
            Key::Mixins => "mixins",
            Key::Depends => "depends",
            Key::Breaks => "breaks",
        }
    }
}
