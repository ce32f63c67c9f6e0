//! A constant pool.
ghost use Rattle.std.specs.Prelude.{◌≡◌, ◌≤◌, ◌+◌, ◌++◌, ◌∷◌, [], ◌↔◌, List, ℕ, length, take, IfOk, IfErr, IfSome, IfNone, Some, vec_len, vec_capacity};
ghost use Rattle.wv_pool.specs.Adding.{slots_of, Adds};
ghost use Rattle.wv_pool.specs.Numbers.{IsLeast, Named};
ghost use Rattle.std.specs.Option.{option_copied, option_map};
ghost use Rattle.wv_pool.specs.Entries.{pool_bytes, IsEntry};
ghost use Rattle.wv_pool.specs.References.{entry_of, text_of, IsSound, IsPool};
ghost use Rattle.wv_pool.specs.Constants.{class_name, named_pair, constant_in, constant_of};

use crate::add::PoolFault;
use crate::building::index_of;
use crate::entry::is_wide;
use crate::index::Index;
use crate::reference::entry_of;
use crate::writing::pool_to_bytes;
use std::alloc::Global;
use std::marker::Model;
use wv_base::{Bytes, Const, Memory, Name, PoolEntry};

/// A constant pool in which each number names what its place needs (JVM Specification 4.4).
/// Contracts see the list of its entries, the first of which has number 1; a long or a double is
/// followed by an entry that isn't usable.
#[derive(Drop)]
pub struct Pool {
    entries: Vec<PoolEntry>,
    index: Index,
}

impl Model for Pool {
    ghost use Rattle.std.specs.Prelude.{List};
    ghost use Rattle.wv_base.specs.declared.class_file.PoolEntry.{PoolEntry};
    ghost use Rattle.wv_pool.specs.References.{IsPool};
    ghost use Rattle.wv_pool.specs.Index.{number_in};
    ghost use Rattle.wv_pool.specs.Numbers.{IsIn, Enters};

    ghost Value = { List PoolEntry };

    ghost view = { λ p. p.entries.items };

    ghost invariant = { λ p. IsPool p.entries.items × Enters p.entries.items (IsIn p.entries.items) (number_in p.index) };
}

/// How many numbers an entry takes.
fn slot_count(entry: &PoolEntry) -> usize
    ensures { result ≡ length (slots_of entry.now) }
{
    if is_wide(entry) { 2 } else { 1 }
}

/// Adds an entry, and the number behind it where it takes two, within the capacity.
fn push_slots(entries: &mut Vec<PoolEntry>, entry: PoolEntry)
    requires { vec_len entries.old + length (slots_of entry) ≤ vec_capacity entries.old }
    ensures { entries.new.items ≡ entries.old.items ++ slots_of entry }
{
    let wide = is_wide(&entry);
    if entries.push(entry).is_err() {
        unreachable!()
    }
    if wide && entries.push(PoolEntry::Unusable).is_err() {
        unreachable!()
    }
}

impl Pool {
    /// The pool of these entries, in which each number names what its place needs, as `read_layout` and
    /// `first_break` show.
    pub fn from_entries(alloc: Global, entries: Vec<PoolEntry>) -> Result<Pool, Memory>
        requires { IsPool entries.items }
        ensures { IfOk result (λ pool. pool ≡ entries.items) }
    {
        let index = index_of(alloc, &entries)?;
        Ok(Pool { entries, index })
    }

    /// The least number that names the constant.
    pub fn number_of(&self, constant: &Const) -> Option<u16>
        ensures found { IfSome result (IsLeast self.now constant.now) }
        ensures none { IfNone result (Named self.now constant.now → ⊥) }
    {
        self.index.number_of(constant)
    }

    /// Puts a constant whose parts have numbers into the pool as this entry, unless a number names it
    /// already, and gives the least number that names it.
    pub(crate) fn put(&mut self, constant: &Const, entry: PoolEntry) -> Result<u16, PoolFault>
        requires laid_out { IsEntry entry }
        requires sound { IsSound self.old entry }
        requires named { constant_in self.old entry ≡ Some constant.now }
        ensures { Adds self.old self.new (constant.now ∷ []) constant.now result }
    {
        if let Some(number) = self.index.number_of(constant) {
            return Ok(number);
        }
        let count = self.entries.len() + 1;
        let slots = slot_count(&entry);
        if count + slots > 65535 {
            return Err(PoolFault::Full);
        }
        let Some(key) = self.index.key(constant)? else {
            unreachable!()
        };
        self.entries.reserve(slots)?;
        self.index.insert(key, count as u16)?;
        push_slots(&mut self.entries, entry);
        Ok(count as u16)
    }

    /// The bytes of the pool, from its count on.
    pub fn write(&self, alloc: Global) -> Result<Bytes, Memory>
        ensures { IfOk result (λ bytes. bytes ≡ pool_bytes self.now) }
    {
        Ok(Bytes::from_vec(pool_to_bytes(alloc, self.entries())?))
    }

    /// The entries, the one with number 1 first.
    pub fn entries(&self) -> &[PoolEntry]
        ensures entries { result.now ≡ self.now }
        ensures sound { IsPool self.now }
    {
        self.entries.as_slice()
    }

    /// The entry with the number.
    pub fn entry(&self, number: u16) -> Option<&PoolEntry>
        ensures { option_copied result ≡ entry_of self.now number }
    {
        entry_of(self.entries(), number)
    }

    /// The text with the number.
    pub fn text(&self, number: u16) -> Option<&Name>
        ensures { option_copied result ≡ text_of self.now number }
    {
        match self.entry(number) {
            Some(PoolEntry::Utf8(name)) => Some(name),
            _ => None,
        }
    }

    /// The name of the class with the number; an array's is its descriptor.
    pub fn class_name(&self, number: u16) -> Option<&Name>
        ensures { option_copied result ≡ class_name self.now number }
    {
        match self.entry(number) {
            Some(PoolEntry::Class { name }) => self.text(*name),
            _ => None,
        }
    }

    /// The name and the descriptor of the NameAndType with the number.
    pub fn name_and_type(&self, number: u16) -> Option<(&Name, &Name)>
        ensures { option_map (λ p. (p.0.now, p.1.now)) result ≡ named_pair self.now number }
    {
        match self.entry(number) {
            Some(PoolEntry::NameAndType { name, descriptor }) => {
                Some((self.text(*name)?, self.text(*descriptor)?))
            }
            _ => None,
        }
    }
}
