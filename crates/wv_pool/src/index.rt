//! The numbers of a pool's constants, by their keys.
ghost use Rattle.std.specs.Prelude.{◌≡◌, ℕ, None, IfOk, OnOk, OnErr};

use crate::key::Key;
use std::alloc::Global;
use std::collections::BTreeMap;
use wv_base::{Const, MemberReference, Memory, Name};

/// The number of each key, texts by their units and others by their words.
#[derive(Drop)]
pub(crate) struct Index {
    texts: BTreeMap<Name, u16>,
    others: BTreeMap<[u64; 3], u16>,
}

impl Index {
    ghost use Rattle.wv_pool.specs.declared.key.Key.{Key};
    ghost use Rattle.wv_pool.specs.declared.key.Key.TheVariants as keys;
    ghost use Rattle.wv_pool.specs.Index.{number_in, Inserts, HasOrInserts};
    ghost use Rattle.wv_pool.specs.Numbers.{text_number, class_number, pair_number, member_key, method_key, handled_key, other_key, find_key, number_for};

    pub(crate) fn new(alloc: Global) -> Index
        ensures { (key : Key) → number_in result key ≡ None }
    {
        Index {
            texts: BTreeMap::new(alloc),
            others: BTreeMap::new(alloc),
        }
    }

    pub(crate) fn number(&self, key: &Key) -> Option<u16>
        ensures { result ≡ number_in self.now key.now }
    {
        match key {
            Key::Utf8(name) => self.texts.get(name).copied(),
            key => self.others.get(&key.words()).copied(),
        }
    }

    fn text(&self, name: &Name) -> Option<u16>
        ensures { result ≡ text_number (number_in self.now) name.now }
    {
        self.texts.get(name).copied()
    }

    fn class(&self, name: &Name) -> Option<u16>
        ensures { result ≡ class_number (number_in self.now) name.now }
    {
        self.number(&Key::Class(self.text(name)?))
    }

    fn pair(&self, name: &Name, descriptor: &Name) -> Option<u16>
        ensures { result ≡ pair_number (number_in self.now) name.now descriptor.now }
    {
        self.number(&Key::NameAndType(self.text(name)?, self.text(descriptor)?))
    }

    fn field_key(&self, member: &MemberReference) -> Option<Key>
        ensures { result ≡ member_key (number_in self.now) (λ a b. keys.Field a b) member.now }
    {
        let class = self.class(&member.owner)?;
        let pair = self.pair(&member.name, &member.descriptor)?;
        Some(Key::Field(class, pair))
    }

    fn method_key(&self, interface: bool, member: &MemberReference) -> Option<Key>
        ensures { result ≡ method_key (number_in self.now) interface member.now }
    {
        let class = self.class(&member.owner)?;
        let pair = self.pair(&member.name, &member.descriptor)?;
        if interface {
            Some(Key::InterfaceMethod(class, pair))
        } else {
            Some(Key::Method(class, pair))
        }
    }

    fn handled_key(&self, kind: u8, member: &MemberReference, interface: bool) -> Option<Key>
        ensures { result ≡ handled_key (number_in self.now) kind member.now interface }
    {
        if kind > 4 {
            self.method_key(interface, member)
        } else if interface {
            None
        } else {
            self.field_key(member)
        }
    }

    /// The key of a constant that is no text, where each of its parts has a number.
    fn other_key(&self, constant: &Const) -> Option<Key>
        ensures { result ≡ other_key (number_in self.now) constant.now }
    {
        match constant {
            Const::Utf8(_) => None,
            Const::Integer(value) => Some(Key::Integer(*value)),
            Const::Float(bits) => Some(Key::Float(*bits)),
            Const::Long(value) => Some(Key::Long(*value)),
            Const::Double(bits) => Some(Key::Double(*bits)),
            Const::Class(name) => Some(Key::Class(self.text(name)?)),
            Const::String(text) => Some(Key::String(self.text(text)?)),
            Const::Field(member) => self.field_key(member),
            Const::Method {
                reference,
                interface,
            } => self.method_key(*interface, reference),
            Const::NameAndType { name, descriptor } => {
                Some(Key::NameAndType(self.text(name)?, self.text(descriptor)?))
            }
            Const::MethodHandle {
                kind,
                reference,
                interface,
            } => {
                let member = self.number(&self.handled_key(*kind, reference, *interface)?)?;
                Some(Key::MethodHandle(*kind, member))
            }
            Const::MethodType(descriptor) => Some(Key::MethodType(self.text(descriptor)?)),
            Const::InvokeDynamic {
                bootstrap,
                name,
                descriptor,
            } => Some(Key::InvokeDynamic(*bootstrap, self.pair(name, descriptor)?)),
        }
    }

    /// The key of a constant, where each of its parts has a number.
    pub(crate) fn key(&self, constant: &Const) -> Result<Option<Key>, Memory>
        ensures { IfOk result (λ key. key ≡ find_key (number_in self.now) constant.now) }
    {
        match constant {
            Const::Utf8(name) => Ok(Some(Key::Utf8(name.copy()?))),
            other => Ok(self.other_key(other)),
        }
    }

    /// The number of a constant.
    pub(crate) fn number_of(&self, constant: &Const) -> Option<u16>
        ensures { result ≡ number_for (number_in self.now) constant.now }
    {
        match constant {
            Const::Utf8(name) => self.text(name),
            other => self.number(&self.other_key(other)?),
        }
    }

    /// Gives the key the number. An `Err` changes nothing.
    pub(crate) fn insert(&mut self, key: Key, number: u16) -> Result<(), Memory>
        ensures ok { OnOk result (Inserts (number_in self.old) (number_in self.new) key number) }
        ensures err { OnErr result ((other : Key) → number_in self.new other ≡ number_in self.old other) }
    {
        match key {
            Key::Utf8(name) => {
                self.texts.insert(name, number)?;
            }
            key => {
                self.others.insert(key.words(), number)?;
            }
        }
        Ok(())
    }

    /// The number of the key, which is this one from now on where it had none.
    pub(crate) fn number_or_insert(&mut self, key: Key, number: u16) -> Result<u16, Memory>
        ensures { IfOk result (λ given. HasOrInserts (number_in self.old) (number_in self.new) key number given) }
    {
        if let Some(given) = self.number(&key) {
            return Ok(given);
        }
        self.insert(key, number)?;
        Ok(number)
    }
}
