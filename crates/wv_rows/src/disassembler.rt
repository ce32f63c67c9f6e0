//! A class as the words of the assembler.

use std::alloc::{AllocError, Global};
use std::test::Fail;
use wv_base::{Attribute, ClassFile, ClassVersion, Insn, Member, Name, Note, PoolEntry, shown};
use wv_class::read_class;

/// The words of a class.
#[derive(Drop)]
struct Words {
    alloc: Global,
    text: String,
}

impl Words {
    fn add(&mut self, kind: &str, value: &str) -> Result<(), AllocError> {
        self.text.push_str(kind)?;
        self.text.push_str(value)
    }

    fn add_name(&mut self, kind: &str, name: &Name) -> Result<(), Fail> {
        let value = shown(self.alloc, name)?;
        Ok(self.add(kind, value.as_str())?)
    }

    fn version(&mut self, version: ClassVersion) -> Result<(), AllocError> {
        if version.major == 52 && version.minor == 0 {
            return Ok(());
        }
        let text = format!(in self.alloc; "{}.{}", version.major, version.minor)?;
        self.add(" version:", text.as_str())
    }

    fn notes(&mut self, notes: &[Note]) -> Result<(), Fail> {
        for note in notes {
            let kind = if note.visible { " seen:" } else { " note:" };
            self.add_name(kind, &note.annotation.class)?;
        }
        Ok(())
    }

    fn attributes(
        &mut self,
        kind: &str,
        pool: &[PoolEntry],
        attributes: &[Attribute],
    ) -> Result<(), Fail> {
        for attribute in attributes {
            let place = (attribute.name as usize).saturating_sub(1);
            match pool.get(place) {
                Some(PoolEntry::Utf8(name)) => self.add_name(kind, name)?,
                _ => return Err(Fail::from("an attribute with a name")),
            }
        }
        Ok(())
    }

    fn insn(&mut self, insn: &Insn) -> Result<(), Fail> {
        match insn {
            Insn::Plain { op: 0xb1 } => Ok(()),
            Insn::Push { value, .. } => {
                let value = format!(in self.alloc; "{value}")?;
                Ok(self.add(" push:", value.as_str())?)
            }
            Insn::Reference {
                op: 0xb8,
                owner,
                name,
                ..
            } => {
                self.add_name(" call:", owner)?;
                self.add_name(".", name)
            }
            Insn::Reference { name, .. } => self.add_name(" ", name),
            _ => Err(Fail::from("an instruction of the assembler")),
        }
    }

    fn insns(&mut self, insns: &[Insn]) -> Result<(), Fail> {
        for insn in insns {
            self.insn(insn)?;
        }
        Ok(())
    }

    fn method(&mut self, pool: &[PoolEntry], method: &Member) -> Result<(), Fail> {
        if method.descriptor.is_ascii("()V") {
            self.add_name(" def:", &method.name)?;
        } else {
            self.add_name(" ", &method.name)?;
        }
        self.notes(method.notes.as_slice())?;
        self.attributes(" kept:", pool, method.kept.as_slice())?;
        let body = method.body.as_ref().ok_or("code")?;
        self.attributes(" code-kept:", pool, body.kept.as_slice())?;
        self.insns(body.insns.as_slice())
    }

    fn class(&mut self, class: &ClassFile) -> Result<(), Fail> {
        let pool = class.pool.as_slice();
        self.add_name("class:", &class.name)?;
        self.version(class.version)?;
        self.notes(class.notes.as_slice())?;
        self.attributes(" kept:", pool, class.kept.as_slice())?;
        for method in class.methods.as_slice() {
            self.method(pool, method)?;
        }
        Ok(())
    }
}

/// The words of the class that the bytes spell: its name, its version where it isn't 52.0,
/// its annotations and other attributes, and
/// its methods with theirs and their instructions, but for `return`.
pub(crate) fn words_of(alloc: Global, bytes: &[u8]) -> Result<String, Fail> {
    let class = read_class(alloc, bytes)?;
    let mut words = Words {
        alloc,
        text: String::new(alloc),
    };
    words.class(&class)?;
    Ok(words.text)
}
