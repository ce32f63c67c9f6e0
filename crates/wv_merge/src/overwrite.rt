//! The overwrite of one method of the target by the mixin's.
ghost use Rattle.std.specs.Prelude.{◌≡◌, ◌↔◌, map, option_map, option_copied, IsTrue, All, IfOk, IfNone, IfSome};
ghost use Rattle.wv_model.specs.PlainMethod.{AreSame};
ghost use Rattle.wv_merge.specs.Overwriting.{IsPlaceOf};
ghost use Rattle.wv_merge.specs.Renaming.{body_read, insn_read, meaning, method_read};
ghost use Rattle.wv_merge.specs.Written.{written_version};

use std::alloc::Global;
use wv_base::{Body, ClassFile, ClassVersion, Insn, Items, Member, Memory, Name};

/// The names of a mixin's class and of its target: in the mixin's code, the first means the second.
#[derive(Drop)]
pub(crate) struct Renaming<'a> {
    pub(crate) mixin: &'a Name,
    pub(crate) target: &'a Name,
}

impl Renaming<'_> {
    /// What a class's name in the mixin's code means.
    fn meaning(&self, name: &Name) -> Result<Name, Memory>
        ensures { IfOk result (λ meant. meant ≡ meaning self.entry.now name.now) }
    {
        if name.is(self.mixin) {
            self.target.copy()
        } else {
            name.copy()
        }
    }
}

fn are_same(first: &Member, second: &Member) -> bool
    ensures { IsTrue result ↔ AreSame first.now second.now }
{
    first.name.is(&second.name) && first.descriptor.is(&second.descriptor)
}

/// The place of the method that another overwrites: the first of the same name and descriptor.
pub(crate) fn place_of(target: &ClassFile, method: &Member) -> Option<usize>
    ensures found { IfSome result (IsPlaceOf target.now.methods method.now) }
    ensures none { IfNone result (All (λ other. AreSame other method.now → ⊥) target.now.methods) }
{
    for (place, other) in target.methods.as_slice().iter().enumerate() {
        if are_same(other, method) {
            return Some(place);
        }
    }
    None
}

/// An instruction of the mixin as it is read in the target.
fn read_in(alloc: Global, renaming: &Renaming<'_>, insn: &Insn) -> Result<Insn, Memory>
    ensures { IfOk result (λ read. read ≡ insn_read renaming.entry.now insn.now) }
{
    match insn {
        Insn::Reference {
            op,
            owner,
            name,
            descriptor,
            interface,
        } => Ok(Insn::Reference {
            op: *op,
            owner: renaming.meaning(owner)?,
            name: name.copy()?,
            descriptor: descriptor.copy()?,
            interface: *interface,
        }),
        _ => insn.copy(alloc),
    }
}

/// The instructions of the mixin as they are read in the target.
fn insns_in(alloc: Global, renaming: &Renaming<'_>, insns: &[Insn]) -> Result<Items<Insn>, Memory>
    ensures { IfOk result (λ read. read ≡ map (insn_read renaming.entry.now) insns.now) }
{
    let mut read = Items::new(alloc);
    for insn in insns {
        read.push(read_in(alloc, renaming, insn)?)?;
    }
    Ok(read)
}

/// The body of a mixin's method as it is read in the target.
fn body_in(alloc: Global, renaming: &Renaming<'_>, body: &Body) -> Result<Body, Memory>
    ensures { IfOk result (λ read. read ≡ body_read renaming.entry.now body.now) }
{
    Ok(Body {
        max_stack: body.max_stack,
        max_locals: body.max_locals,
        insns: insns_in(alloc, renaming, body.insns.as_slice())?,
        ranges: Items::new(alloc),
        frames: Items::new(alloc),
        kept: Items::new(alloc),
    })
}

fn code_in(
    alloc: Global,
    renaming: &Renaming<'_>,
    body: Option<&Body>,
) -> Result<Option<Body>, Memory>
    ensures { IfOk result (λ read. read ≡ option_map (body_read renaming.entry.now) (option_copied body.entry)) }
{
    match body {
        Some(body) => Ok(Some(body_in(alloc, renaming, body)?)),
        None => Ok(None),
    }
}

/// A method of the target as the mixin's replaces it: it keeps its flags, and gets the mixin's code
/// and no other attribute.
pub(crate) fn merged(
    alloc: Global,
    renaming: &Renaming<'_>,
    old: &Member,
    method: &Member,
) -> Result<Member, Memory>
    ensures { IfOk result (λ member. member ≡ method_read renaming.entry.now old.now method.now) }
{
    Ok(Member {
        flags: old.flags,
        name: old.name.copy()?,
        descriptor: old.descriptor.copy()?,
        body: code_in(alloc, renaming, method.body.as_ref())?,
        value: None,
        throws: Items::new(alloc),
        notes: Items::new(alloc),
        kept: Items::new(alloc),
    })
}

/// The version that is written: the greater major version, and the minor one of 0 where it is raised.
pub(crate) fn written_version(target: ClassVersion, mixin: ClassVersion) -> ClassVersion
    ensures { result ≡ written_version target mixin }
{
    if mixin.major <= target.major {
        target
    } else {
        ClassVersion {
            major: mixin.major,
            minor: 0,
        }
    }
}
