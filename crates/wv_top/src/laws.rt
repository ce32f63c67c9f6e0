//! What follows from the clauses of the top call. Nothing runs this.
ghost use Rattle.std.specs.Prelude.{◌≡◌, List};
ghost use Rattle.wv_base.specs.Folder.{File};
ghost use Rattle.wv_base.specs.declared.broken.Broken.{Broken};
ghost use Rattle.wv_base.specs.declared.side.Side.{Side};
ghost use Rattle.wv_tree.specs.Tree.{Folders};
ghost use Rattle.wv_top.specs.Words.{Command};
ghost use Rattle.wv_top.specs.Rules.{FirstBrokenOf, NoneBrokenOf, SomeBrokenOf};
ghost use Rattle.wv_top.specs.Unfailed.{EndsUnfailed, Decides};
ghost use Rattle.wv_top.specs.declared.status.Status.{Status as Ended};

/// Where the words are a command and no count of faults rises, the call is refused exactly where the
/// files that the tree tells break a rule on the command's side, and is done exactly where they break
/// none, unless memory runs out. On a side, files break a rule or none, never both, and one rule is the
/// first that they break.
pub fn refused_exactly()
    ensures decided { (command : Command) (folders : Folders) (status : Ended)
        → EndsUnfailed command folders status → Decides (folders command.folder) command.side status }
    ensures apart { (files : List File) (side : Side)
        → NoneBrokenOf files side → SomeBrokenOf files side → ⊥ }
    ensures one_first { (files : List File) (side : Side) (first second : Broken)
        → FirstBrokenOf files side first → FirstBrokenOf files side second → first ≡ second }
{}
