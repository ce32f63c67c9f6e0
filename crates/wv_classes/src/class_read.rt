//! What the bytes of a class file are.
ghost use Rattle.std.specs.Prelude.{IfOk};
ghost use Rattle.wv_classes.specs.FolderClass.{IsReadOf};

use std::alloc::Global;
use wv_base::{ClassFault, ClassFile, Memory};
use wv_class::read_class;

/// What the bytes of a class file are (JVM Specification chapter 4).
#[derive(Debug, Drop)]
pub enum ClassRead {
    Class(ClassFile),
    /// The bytes are no class file, and this is the offset at which it shows.
    Layout(usize),
    /// The item at this offset is the first that breaks what it must meet.
    Reference(usize),
}

impl ClassRead {
    /// What the bytes are.
    pub(crate) fn of(alloc: Global, bytes: &[u8]) -> Result<ClassRead, Memory>
        ensures { IfOk result (IsReadOf bytes.now) }
    {
        match read_class(alloc, bytes) {
            Ok(class) => Ok(ClassRead::Class(class)),
            Err(ClassFault::Layout { at }) => Ok(ClassRead::Layout(at)),
            Err(ClassFault::Reference { at }) => Ok(ClassRead::Reference(at)),
            Err(ClassFault::Memory) => Err(Memory),
        }
    }
}
