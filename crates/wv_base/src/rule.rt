//! The rules that a folder may break.
ghost use Rattle.std.specs.Prelude.{◌≡◌};
ghost use Rattle.wv_base.specs.Rule.{number_of, name_of};

/// The rules of the loader, each with its number (our own). A folder is refused for the first that
/// it breaks.
#[derive(Clone, Copy, Debug, PartialEq, Eq)]
pub enum Rule {
    /// A listed path ends in `.jar`.
    JarFile = 1,
    /// `game/game.json` is not listed.
    GameMissing = 2,
    /// `game/game.json` is not as it has to be.
    GameBad = 3,
    /// Too many files, or too many bytes.
    TooMuch = 5,
    /// The answers file is not listed, or a line of it is no answer.
    AnswersBad = 6,
    /// A form that is not built yet.
    OutOfForm = 9,
    /// A mod folder has no `fabric.mod.json`.
    ModMissing = 10,
    /// A `fabric.mod.json` is not as it has to be.
    ModBad = 11,
    /// An id is outside the grammar of ids.
    IdBad = 12,
    /// A mod names nested jars.
    NestedJars = 13,
    /// A text of `depends` or `breaks` is no version predicate.
    PredicateBad = 14,
    /// An id is present twice.
    DuplicateId = 15,
    /// An entry of `depends` is not met.
    DependsUnmet = 16,
    /// An entry of `breaks` is met.
    BreaksMet = 17,
    /// A named mixin configuration is not listed.
    ConfigMissing = 20,
    /// A mixin configuration is not as it has to be.
    ConfigBad = 21,
    /// A mixin configuration names a plugin.
    PluginNamed = 22,
    /// A refmap is not as it has to be.
    RefmapBad = 23,
    /// A listed mixin class is not in the folder.
    MixinMissing = 24,
    /// Bytes are no class file.
    ClassBad = 30,
    /// A class file has another major version than those that are read.
    VersionOutside = 31,
    /// A class has another name than its path says.
    NamePath = 32,
    /// A class name stands twice.
    ClassTwice = 33,
    /// The hierarchy of classes is not well founded.
    HierarchyBad = 35,
    /// A class does not verify.
    Unverified = 36,
    /// A mixin's annotations are not as they have to be.
    MixinBad = 40,
    /// A mixin's target is not there.
    TargetMissing = 41,
    /// A mixin's target is an interface or a mixin.
    TargetKind = 42,
    /// A mixin's superclass does not fit its target.
    MixinSuper = 43,
    /// Another class names a class mixin.
    MixinReferenced = 44,
    /// A mixin has a member or an annotation that is not supported.
    MixinMember = 45,
    /// A shadowed member is not there.
    ShadowMissing = 50,
    /// An overwritten method is not there.
    OverwriteMissing = 51,
    /// An overwrite has other flags than its target allows.
    OverwriteKind = 52,
    /// An overwrite lacks the annotation that its configuration asks for.
    OverwriteUnmarked = 53,
    /// An accessor's field is not there.
    AccessorMissing = 55,
    /// An accessor is not as it has to be.
    AccessorForm = 56,
    /// An invoker's method is not there.
    InvokerMissing = 57,
    /// An invoker is not as it has to be.
    InvokerForm = 58,
    /// A text is no selector.
    SelectorBad = 60,
    /// An injection point is not as it has to be.
    PointBad = 62,
    /// Fewer matches than required.
    RequireUnmet = 64,
    /// More matches than allowed.
    AllowPassed = 65,
    /// A handler's descriptor does not fit.
    HandlerForm = 66,
    /// A handler's static flag does not fit.
    HandlerStatic = 67,
    /// An injection where a constructor does not allow it.
    ConstructorSpot = 69,
    /// A redirected `new` whose object is not used as it has to be.
    NewShape = 70,
    /// Not exactly one local variable is left.
    VariableOpen = 71,
    /// A slot that a call loads or changes has another type there.
    SlotRetyped = 72,
    /// A written method may pass the size of code.
    CodeLarge = 80,
    /// A written branch may pass its range.
    BranchFar = 81,
    /// A written class may pass the size of a table.
    PoolLarge = 82,
    /// A written method may pass the width of a frame.
    FrameWide = 84,
}

impl Rule {
    /// The number that the refusal prints.
    pub fn number(self) -> u8
        ensures { result ≡ number_of self }
    {
        self as u8
    }

    /// The name that the refusal prints.
    #[tactic(auto, unfolding(crate::specs::Rule::name_of))]
    pub fn name(self) -> &'static str
        ensures { result.now ≡ name_of self }
    {
        match self {
            Rule::JarFile => "JarFile",
            Rule::GameMissing => "GameMissing",
            Rule::GameBad => "GameBad",
            Rule::TooMuch => "TooMuch",
            Rule::AnswersBad => "AnswersBad",
            Rule::OutOfForm => "OutOfForm",
            Rule::ModMissing => "ModMissing",
            Rule::ModBad => "ModBad",
            Rule::IdBad => "IdBad",
            Rule::NestedJars => "NestedJars",
            Rule::PredicateBad => "PredicateBad",
            Rule::DuplicateId => "DuplicateId",
            Rule::DependsUnmet => "DependsUnmet",
            Rule::BreaksMet => "BreaksMet",
            Rule::ConfigMissing => "ConfigMissing",
            Rule::ConfigBad => "ConfigBad",
            Rule::PluginNamed => "PluginNamed",
            Rule::RefmapBad => "RefmapBad",
            Rule::MixinMissing => "MixinMissing",
            Rule::ClassBad => "ClassBad",
            Rule::VersionOutside => "VersionOutside",
            Rule::NamePath => "NamePath",
            Rule::ClassTwice => "ClassTwice",
            Rule::HierarchyBad => "HierarchyBad",
            Rule::Unverified => "Unverified",
            Rule::MixinBad => "MixinBad",
            Rule::TargetMissing => "TargetMissing",
            Rule::TargetKind => "TargetKind",
            Rule::MixinSuper => "MixinSuper",
            Rule::MixinReferenced => "MixinReferenced",
            Rule::MixinMember => "MixinMember",
            Rule::ShadowMissing => "ShadowMissing",
            Rule::OverwriteMissing => "OverwriteMissing",
            Rule::OverwriteKind => "OverwriteKind",
            Rule::OverwriteUnmarked => "OverwriteUnmarked",
            Rule::AccessorMissing => "AccessorMissing",
            Rule::AccessorForm => "AccessorForm",
            Rule::InvokerMissing => "InvokerMissing",
            Rule::InvokerForm => "InvokerForm",
            Rule::SelectorBad => "SelectorBad",
            Rule::PointBad => "PointBad",
            Rule::RequireUnmet => "RequireUnmet",
            Rule::AllowPassed => "AllowPassed",
            Rule::HandlerForm => "HandlerForm",
            Rule::HandlerStatic => "HandlerStatic",
            Rule::ConstructorSpot => "ConstructorSpot",
            Rule::NewShape => "NewShape",
            Rule::VariableOpen => "VariableOpen",
            Rule::SlotRetyped => "SlotRetyped",
            Rule::CodeLarge => "CodeLarge",
            Rule::BranchFar => "BranchFar",
            Rule::PoolLarge => "PoolLarge",
            Rule::FrameWide => "FrameWide",
        }
    }
}
