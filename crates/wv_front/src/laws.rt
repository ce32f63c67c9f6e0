//! What the contracts mean: for any configurations and classes there is one answer. Each law stands
//! on a function that does nothing.
ghost use Rattle.std.specs.Prelude.{◌≡◌, ℕ, List};
ghost use Rattle.wv_base.specs.declared.broken.Broken.{Broken};
ghost use Rattle.wv_base.specs.declared.side.Side.{Side};
ghost use Rattle.wv_classes.specs.declared.folder_class.FolderClass.{FolderClass};
ghost use Rattle.wv_classes.specs.declared.loaded_class.LoadedClass.{LoadedClass};
ghost use Rattle.wv_config.specs.declared.loaded.Configs.{Configs};
ghost use Rattle.wv_config.specs.declared.loaded.LoadedConfig.{LoadedConfig};
ghost use Rattle.wv_front.specs.declared.order.AppliedMixin.{AppliedMixin};
ghost use Rattle.wv_front.specs.Listed.{AreListed, IsFirstMissing};
ghost use Rattle.wv_front.specs.MixinOrder.{StandsAt, AreApplied, AreOrdered, HasSmaller};
ghost use Rattle.wv_front.specs.Marked.{AreMarked, IsFirstMarkless};

/// Listed classes are refused in one way.
pub fn one_missing()
    ensures { (configs : Configs) (classes : List FolderClass) (broken other : Broken)
        → IsFirstMissing configs classes broken → IsFirstMissing configs classes other → broken ≡ other }
{}

/// Where each listed class is of the folder, none is refused.
pub fn listed_or_refused()
    ensures { (configs : Configs) (classes : List FolderClass) (broken : Broken)
        → AreListed configs classes → IsFirstMissing configs classes broken → ⊥ }
{}

/// The mixins that are applied have one order.
pub fn one_order()
    ensures { (configs : List LoadedConfig) (classes : List LoadedClass) (side : Side) (mixins other : List AppliedMixin)
        → AreApplied configs classes side mixins → AreOrdered mixins
        → AreApplied configs classes side other → AreOrdered other → mixins ≡ other }
{}

/// Mixin number k is the one with exactly k applied mixins of smaller key.
pub fn mixin_number()
    ensures { (configs : List LoadedConfig) (classes : List LoadedClass) (side : Side) (mixins : List AppliedMixin)
        → AreApplied configs classes side mixins → AreOrdered mixins
        → (k : ℕ) (mixin : AppliedMixin) → StandsAt mixins k mixin → HasSmaller configs classes side mixin k }
{}

/// Mixins are refused for their annotation in one way.
pub fn one_markless()
    ensures { (classes : List LoadedClass) (mixins : List AppliedMixin) (broken other : Broken)
        → IsFirstMarkless classes mixins broken → IsFirstMarkless classes mixins other → broken ≡ other }
{}

/// Where the class of each mixin has exactly one `@Mixin`, none is refused.
pub fn marked_or_refused()
    ensures { (classes : List LoadedClass) (mixins : List AppliedMixin) (broken : Broken)
        → AreMarked classes mixins → IsFirstMarkless classes mixins broken → ⊥ }
{}
