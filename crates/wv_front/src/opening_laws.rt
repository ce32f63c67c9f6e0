//! What the contracts of `opening` and `opening_cut` mean: for any folder there is one answer. Each law
//! stands on a function that does nothing.
ghost use Rattle.std.specs.Prelude.{◌≡◌, ℕ, List};
ghost use Rattle.wv_base.specs.declared.broken.Broken.{Broken};
ghost use Rattle.wv_base.specs.Folder.{File};
ghost use Rattle.wv_front.specs.declared.limit.Limit.{Limit};
ghost use Rattle.wv_front.specs.declared.limit.Cut.{Cut};
ghost use Rattle.wv_front.specs.Opening.{AreWithin, PassesAt, IsOpened, IsFirstUnopened, IsFirstCut};
ghost use Rattle.wv_front.specs.FilesRead.{IsReadOf, AreOpened, IsFirstOfFiles};

/// Files pass one limit at most, at one path.
pub fn one_passing()
    ensures { (files : List File) (path other : List ℕ) (limit last : Limit)
        → PassesAt files path limit → PassesAt files other last → (path ≡ other) × (limit ≡ last) }
{}

/// One of the rules 1, 2, 3 and 5 is the first that a folder breaks, at one place.
pub fn one_opening_refusal()
    ensures whole { (folder : List File) (broken other : Broken)
        → IsFirstUnopened folder broken → IsFirstUnopened folder other → broken ≡ other }
    ensures ended_early { (folder : List File) (cut : Cut) (broken other : Broken)
        → IsFirstCut folder cut broken → IsFirstCut folder cut other → broken ≡ other }
    ensures of_files { (files : List File) (broken other : Broken)
        → IsFirstOfFiles files broken → IsFirstOfFiles files other → broken ≡ other }
{}

/// A folder that is opened breaks none of these rules.
pub fn opened_or_refused()
    ensures whole { (folder : List File) (broken : Broken)
        → IsOpened folder → IsFirstUnopened folder broken → ⊥ }
    ensures of_files { (files : List File) (broken : Broken)
        → AreOpened files → IsFirstOfFiles files broken → ⊥ }
{}

/// What a folder is told of, that is read of files, holds of the files: where it is read to its end, and
/// where its reading ends early.
pub fn files_opened_as_read()
    ensures opened { (files folder : List File) → IsReadOf files folder → AreWithin files
        → IsOpened folder → AreOpened files }
    ensures refused { (files folder : List File) → IsReadOf files folder → AreWithin files
        → (broken : Broken) → IsFirstUnopened folder broken → IsFirstOfFiles files broken }
    ensures ended_early { (files folder : List File) (cut : Cut)
        → IsReadOf files folder → PassesAt files cut.path cut.limit
        → (broken : Broken) → IsFirstCut folder cut broken → IsFirstOfFiles files broken }
{}
