//! The classes that a class file names, and which of them are mixins.
ghost use Rattle.std.specs.Prelude.{◌≡◌, Some, None, IfOk, MatchOption};
ghost use Rattle.std.specs.List.{flat_map, list_any};
ghost use Rattle.wv_pool.specs.References.{text_of};
ghost use Rattle.wv_form.specs.Mention.{text_of_name};

use crate::splitting::{behind_l, parts};
use std::alloc::Global;
use std::collections::BTreeSet;
use wv_base::{ClassFile, Member, Memory, Name, PoolEntry, Text};

/// The unit `[`, with which the descriptor of an array begins.
const ARRAY: u16 = 91;

/// The text that a name spells. A name in which a surrogate has no partner spells none.
pub(crate) fn text_of_name(alloc: Global, units: &[u16]) -> Result<Option<Text>, Memory>
    ensures { IfOk result (λ text. text ≡ text_of_name units.now) }
{
    match String::from_utf16(alloc, units)? {
        Ok(text) => Ok(Some(Text::from_string(text))),
        Err(_) => Ok(None),
    }
}

/// The text with the number in a pool.
fn text_of(pool: &[PoolEntry], number: u16) -> Option<&Name>
    ensures { MatchOption result (text_of pool.now number ≡ None) (λ name. text_of pool.now number ≡ Some name.now) }
{
    let place = (number as usize).checked_sub(1)?;
    match pool.get(place)? {
        PoolEntry::Utf8(name) => Some(name),
        _ => None,
    }
}

/// The names of mixins, of which a class file may name its own alone.
#[derive(Clone, Copy)]
pub(crate) struct OtherMixins<'s, 'a> {
    pub names: &'s BTreeSet<&'a str>,
    pub own: &'s str,
}

impl<'s, 'a> OtherMixins<'s, 'a> {
    ghost use Rattle.std.specs.Prelude.{◌&&◌, not, bytes_eq};
    ghost use Rattle.wv_classes.specs.Roots.{has};
    ghost use Rattle.wv_form.specs.Mention.{names_other};
    ghost use Rattle.wv_form.specs.NamedClasses.{behind_l, within, descriptor_classes, constant_classes, entry_classes, member_classes, named_classes};

    /// Whether the class file names another mixin.
    pub(crate) fn are_in_class(&self, alloc: Global, class: &ClassFile) -> Result<bool, Memory>
        ensures { IfOk result (λ found. found ≡ list_any (names_other self.now.names.now self.now.own.now) (named_classes class.now)) }
    {
        if self.are_in_pool(alloc, class.pool.as_slice())? {
            return Ok(true);
        }
        if self.are_in_members(alloc, class.fields.as_slice())? {
            return Ok(true);
        }
        self.are_in_members(alloc, class.methods.as_slice())
    }

    fn are_in_pool(&self, alloc: Global, pool: &[PoolEntry]) -> Result<bool, Memory>
        ensures { IfOk result (λ found. found ≡ list_any (names_other self.now.names.now self.now.own.now) (flat_map (entry_classes pool.now) pool.now)) }
    {
        for entry in pool {
            if self.are_in_entry(alloc, pool, entry)? {
                return Ok(true);
            }
        }
        Ok(false)
    }

    fn are_in_entry(
        &self,
        alloc: Global,
        pool: &[PoolEntry],
        entry: &PoolEntry,
    ) -> Result<bool, Memory>
        ensures { IfOk result (λ found. found ≡ list_any (names_other self.now.names.now self.now.own.now) (entry_classes pool.now entry.now)) }
    {
        match entry {
            PoolEntry::Class { name } => match text_of(pool, *name) {
                Some(name) => self.are_in_constant(alloc, name.units()),
                None => Ok(false),
            },
            PoolEntry::NameAndType { descriptor, .. } => {
                self.are_in_text(alloc, pool, *descriptor)
            }
            PoolEntry::MethodType { descriptor } => self.are_in_text(alloc, pool, *descriptor),
            _ => Ok(false),
        }
    }

    fn are_in_text(&self, alloc: Global, pool: &[PoolEntry], number: u16) -> Result<bool, Memory>
        ensures { IfOk result (λ found. found ≡ list_any (names_other self.now.names.now self.now.own.now) (within descriptor_classes (text_of pool.now number))) }
    {
        match text_of(pool, number) {
            Some(descriptor) => self.are_in_descriptor(alloc, descriptor.units()),
            None => Ok(false),
        }
    }

    fn are_in_constant(&self, alloc: Global, name: &[u16]) -> Result<bool, Memory>
        ensures { IfOk result (λ found. found ≡ list_any (names_other self.now.names.now self.now.own.now) (constant_classes name.now)) }
    {
        match name {
            [] => Ok(false),
            [ARRAY, component @ ..] => self.are_in_descriptor(alloc, component),
            _ => self.is_named(alloc, name),
        }
    }

    fn are_in_members(&self, alloc: Global, members: &[Member]) -> Result<bool, Memory>
        ensures { IfOk result (λ found. found ≡ list_any (names_other self.now.names.now self.now.own.now) (member_classes members.now)) }
    {
        for member in members {
            if self.are_in_descriptor(alloc, member.descriptor.units())? {
                return Ok(true);
            }
        }
        Ok(false)
    }

    fn are_in_descriptor(&self, alloc: Global, descriptor: &[u16]) -> Result<bool, Memory>
        ensures { IfOk result (λ found. found ≡ list_any (names_other self.now.names.now self.now.own.now) (descriptor_classes descriptor.now)) }
    {
        let parts = parts(alloc, descriptor)?;
        for part in parts.as_slice() {
            if self.is_in_part(alloc, part)? {
                return Ok(true);
            }
        }
        Ok(false)
    }

    fn is_in_part(&self, alloc: Global, part: &[u16]) -> Result<bool, Memory>
        ensures { IfOk result (λ found. found ≡ list_any (names_other self.now.names.now self.now.own.now) (behind_l part.now)) }
    {
        match behind_l(part) {
            Some(name) => self.is_named(alloc, name),
            None => Ok(false),
        }
    }

    /// Whether the name is that of another mixin.
    fn is_named(&self, alloc: Global, name: &[u16]) -> Result<bool, Memory>
        ensures { IfOk result (λ found. found ≡ names_other self.now.names.now self.now.own.now name.now) }
    {
        match text_of_name(alloc, name)? {
            Some(text) => Ok(self.have(text.as_str())),
            None => Ok(false),
        }
    }

    /// Whether the text is the name of another mixin.
    fn have(&self, text: &str) -> bool
        ensures { result ≡ (has self.now.names.now text.now && not (bytes_eq text.now self.now.own.now)) }
    {
        self.names.contains(text) && text != self.own
    }
}
