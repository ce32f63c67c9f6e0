//! What the definitions of the weaver say. Nothing runs this.
ghost use Rattle.std.specs.Prelude.{◌≡◌, List};
ghost use Rattle.wv_base.specs.Folder.{File};
ghost use Rattle.wv_base.specs.declared.broken.Broken.{Broken};
ghost use Rattle.wv_base.specs.declared.side.Side.{Side};
ghost use Rattle.wv_weave.specs.Stages.{IsFirstBroken, NoneBroken};

/// One rule is the first that an opened folder breaks, at one place; and a folder that breaks none has
/// no such rule.
pub fn one_first_broken()
    ensures one { (folder : List File) (side : Side) (broken other : Broken)
        → IsFirstBroken folder side broken → IsFirstBroken folder side other → broken ≡ other }
    ensures none { (folder : List File) (side : Side) (broken : Broken)
        → NoneBroken folder side → IsFirstBroken folder side broken → ⊥ }
{}
