//! The types that texts of a pool say.
ghost use Rattle.std.specs.Prelude.{◌≡◌, IfOk};
ghost use Rattle.std.specs.Option.{option_copied, option_map};
ghost use Rattle.wv_attr.specs.Types.{AreTypes, IsEntryType, type_of, class_in};

use std::alloc::Global;
use std::marker::Model;
use wv_base::{ElementType, FieldType, Memory, Name, PoolEntry};
use wv_desc::field_type;
use wv_pool::Pool;

/// The type of each text of a pool that is a field descriptor (JVM Specification 4.3.2), found once
/// for all tables that name it. Contracts see the list of them, that of the entry with number 1 first.
#[derive(Drop)]
pub struct Types {
    types: Vec<Option<FieldType>>,
}

impl Model for Types {
    ghost use Rattle.std.specs.Prelude.{List, Option};
    ghost use Rattle.wv_base.specs.declared.descriptor.FieldType.{FieldType};

    ghost Value = { List (Option FieldType) };

    ghost view = { λ t. t.types.items };
}

fn type_of_entry(alloc: Global, entry: &PoolEntry) -> Result<Option<FieldType>, Memory>
    ensures { IfOk result (IsEntryType entry.now) }
{
    match entry {
        PoolEntry::Utf8(text) => field_type(alloc, text),
        _ => Ok(None),
    }
}

impl Types {
    /// The types that the pool's texts say.
    pub fn of(alloc: Global, pool: &Pool) -> Result<Types, Memory>
        ensures { IfOk result (AreTypes pool.now) }
    {
        let entries = pool.entries();
        let mut types = Vec::with_capacity(alloc, entries.len())?;
        for entry in entries {
            let found = type_of_entry(alloc, entry)?;
            types.push(found)?;
        }
        Ok(Types { types })
    }

    /// The type that the text with the number says.
    pub fn get(&self, number: u16) -> Option<&FieldType>
        ensures { option_copied result ≡ type_of self.now number }
    {
        self.types.get((number as usize).checked_sub(1)?)?.as_ref()
    }

    /// The class whose descriptor the text with the number is.
    pub fn class(&self, number: u16) -> Option<&Name>
        ensures { option_copied result ≡ class_in (type_of self.now number) }
    {
        match self.get(number) {
            Some(
                FieldType {
                    dimensions: 0,
                    element: ElementType::Class(name),
                },
            ) => Some(name),
            _ => None,
        }
    }
}
