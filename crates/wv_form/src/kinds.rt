//! What class files are in the form.
ghost use Rattle.std.specs.Prelude.{ℕ, List, IfOk, MatchOption};
ghost use Rattle.wv_form.specs.Kinds.{IsClassKind, IsKindOf, IsTargetText, AreKnown, IsTargetOf};

use crate::mention::text_of_name;
use crate::splitting::name_within;
use std::alloc::Global;
use wv_base::{ClassFile, Folder, Memory, Name, Text};
use wv_classes::{ClassRead, FolderClass};
use wv_merge::{Role, is_thin, target_of};

/// What a class file is in the form.
#[derive(Drop)]
pub(crate) enum FileKind<'a> {
    /// It spells no class.
    NoClass,
    /// It spells a thin class.
    Thin(&'a ClassFile),
    /// It spells a thin mixin, whose target has this name. A descriptor of `@Mixin` may name no class,
    /// or one whose name is no text.
    Mixin(&'a ClassFile, Option<Text>),
    /// It spells a class that is neither.
    Other,
}

/// A class file, and what it is in the form.
#[derive(Drop)]
pub(crate) struct KnownFile<'a> {
    pub file: &'a FolderClass,
    pub kind: FileKind<'a>,
}

impl<'a> KnownFile<'a> {
    ghost use Rattle.std.specs.Prelude.{◌≡◌, [], ◌∷◌};
    ghost use Rattle.wv_form.specs.Tables.{mixin_names, target_places, candidate_names};

    /// The name of the class file, if a mixin's target may have it: it spells a thin class, or none.
    pub(crate) fn candidate_name(&self) -> Option<&str>
        ensures { MatchOption result (candidate_names self.now ≡ []) (λ name. candidate_names self.now ≡ name.now ∷ []) }
    {
        match &self.kind {
            FileKind::NoClass | FileKind::Thin(_) => Some(self.file.name.as_str()),
            FileKind::Mixin(_, _) | FileKind::Other => None,
        }
    }

    /// The name of the class file, if it spells a thin mixin.
    pub(crate) fn mixin_name(&self) -> Option<&str>
        ensures { MatchOption result (mixin_names self.now ≡ []) (λ name. mixin_names self.now ≡ name.now ∷ []) }
    {
        match &self.kind {
            FileKind::Mixin(_, _) => Some(self.file.name.as_str()),
            FileKind::NoClass | FileKind::Thin(_) | FileKind::Other => None,
        }
    }

    /// The name of the target, if it spells a thin mixin whose target has one.
    pub(crate) fn target_name(&self) -> Option<&str>
        ensures { MatchOption result (target_places self.now ≡ [])
            (λ name. target_places self.now ≡ (name.now, self.now.file.now.path) ∷ []) }
    {
        match &self.kind {
            FileKind::Mixin(_, Some(target)) => Some(target.as_str()),
            FileKind::Mixin(_, None) => None,
            FileKind::NoClass | FileKind::Thin(_) | FileKind::Other => None,
        }
    }
}

/// The class files in their order, each with what it is.
pub(crate) fn known_files<'a>(
    alloc: Global,
    folder: &Folder,
    classes: &'a [FolderClass],
) -> Result<Vec<KnownFile<'a>>, Memory>
    ensures { IfOk result (λ known. AreKnown folder.now classes.now known.items) }
{
    let mut known = Vec::new(alloc);
    for file in classes {
        let kind = kind_of(alloc, folder, file)?;
        known.push(KnownFile { file, kind })?;
    }
    Ok(known)
}

fn kind_of<'a>(
    alloc: Global,
    folder: &Folder,
    file: &'a FolderClass,
) -> Result<FileKind<'a>, Memory>
    ensures { IfOk result (IsKindOf folder.now file.now) }
{
    let ClassRead::Class(class) = &file.read else {
        return Ok(FileKind::NoClass);
    };
    match folder.find(file.path.as_str()) {
        Some(bytes) => class_kind(alloc, bytes.as_slice(), class),
        None => Ok(FileKind::Other),
    }
}

/// What a class is that these bytes spell.
fn class_kind<'a>(alloc: Global, bytes: &[u8], class: &'a ClassFile) -> Result<FileKind<'a>, Memory>
    ensures { IfOk result (IsClassKind bytes.now class.now) }
{
    if is_thin(alloc, Role::Game, bytes, class)? {
        return Ok(FileKind::Thin(class));
    }
    if !is_thin(alloc, Role::Mixin, bytes, class)? {
        return Ok(FileKind::Other);
    }
    match target_of(class) {
        Some(descriptor) => Ok(FileKind::Mixin(class, target_text(alloc, descriptor)?)),
        None => Ok(FileKind::Other),
    }
}

/// The name of the class that a class has as its target by its one `@Mixin`, as a path says it.
///
/// There is none where the class has no or several `@Mixin`, or where the descriptor is that of no
/// class, or of one whose name is no text. The only error is want of memory.
pub fn target_name(alloc: Global, class: &ClassFile) -> Result<Option<Text>, Memory>
    ensures { IfOk result (IsTargetOf class.now) }
{
    match target_of(class) {
        Some(descriptor) => target_text(alloc, descriptor),
        None => Ok(None),
    }
}

/// The name of the class of this descriptor, as a text.
fn target_text(alloc: Global, descriptor: &Name) -> Result<Option<Text>, Memory>
    ensures { IfOk result (λ target. MatchOption target
        ((text : List ℕ) → IsTargetText descriptor.now text → ⊥) (IsTargetText descriptor.now)) }
{
    match name_within(descriptor.units()) {
        Some(name) => text_of_name(alloc, name),
        None => Ok(None),
    }
}
