//! A small assembler of class files (JVM Specification chapter 4). A class is told as words, each a
//! kind and what it is of, with `:` between them.

use std::alloc::{AllocError, Global};
use std::test::Fail;

/// The annotation `@Mixin`.
const MIXIN: &str = "org/spongepowered/asm/mixin/Mixin";

/// The annotation `@Overwrite`.
const OVERWRITE: &str = "org/spongepowered/asm/mixin/Overwrite";

/// The items of a list, and how many they are.
#[derive(Drop)]
struct Items {
    count: u16,
    bytes: Vec<u8>,
}

impl Items {
    fn new(alloc: Global) -> Items {
        Items {
            count: 0,
            bytes: Vec::new(alloc),
        }
    }

    /// Begins one item more, and answers how many there are.
    fn begin(&mut self) -> u16 {
        self.count = self.count.saturating_add(1);
        self.count
    }
}

fn short(bytes: &mut Vec<u8>, number: u16) -> Result<(), AllocError> {
    bytes.extend_from_slice(&number.to_be_bytes())
}

fn length(bytes: &mut Vec<u8>, length: usize) -> Result<(), AllocError> {
    let length = u32::try_from(length).unwrap_or(0);
    bytes.extend_from_slice(&length.to_be_bytes())
}

/// The count of the items, and behind it the items.
fn list(bytes: &mut Vec<u8>, items: &Items) -> Result<(), AllocError> {
    short(bytes, items.count)?;
    bytes.extend_from_slice(items.bytes.as_slice())
}

/// A method that is public and static.
#[derive(Drop)]
struct Method {
    name: u16,
    descriptor: u16,
    code: Vec<u8>,
    /// The attributes of the code.
    kept: Items,
    attributes: Items,
}

/// A class file that is written: its constant pool, and what stands behind it.
#[derive(Drop)]
struct Assembler {
    alloc: Global,
    /// The major and the minor version.
    version: (u16, u16),
    name: u16,
    superclass: u16,
    pool: Items,
    fields: Items,
    methods: Items,
    attributes: Items,
    /// The method to which the next words belong.
    method: Option<Method>,
}

impl Assembler {
    fn new(alloc: Global) -> Assembler {
        Assembler {
            alloc,
            version: (52, 0),
            name: 0,
            superclass: 0,
            pool: Items::new(alloc),
            fields: Items::new(alloc),
            methods: Items::new(alloc),
            attributes: Items::new(alloc),
            method: None,
        }
    }

    fn entry(&mut self, tag: u8, content: &[u8]) -> Result<u16, AllocError> {
        self.pool.bytes.push(tag)?;
        self.pool.bytes.extend_from_slice(content)?;
        Ok(self.pool.begin())
    }

    fn pair(&mut self, tag: u8, first: u16, second: u16) -> Result<u16, AllocError> {
        let [a, b] = first.to_be_bytes();
        let [c, d] = second.to_be_bytes();
        self.entry(tag, &[a, b, c, d])
    }

    fn text(&mut self, text: &str) -> Result<u16, AllocError> {
        let length = u16::try_from(text.len()).unwrap_or(0);
        let mut content = Vec::from_slice(self.alloc, &length.to_be_bytes())?;
        content.extend_from_slice(text.as_bytes())?;
        self.entry(1, content.as_slice())
    }

    fn class(&mut self, name: &str) -> Result<u16, AllocError> {
        let name = self.text(name)?;
        self.entry(7, &name.to_be_bytes())
    }

    fn name_and_type(&mut self, name: &str, descriptor: &str) -> Result<u16, AllocError> {
        let name = self.text(name)?;
        let descriptor = self.text(descriptor)?;
        self.pair(12, name, descriptor)
    }

    fn member(
        &mut self,
        tag: u8,
        owner: &str,
        name: &str,
        descriptor: &str,
    ) -> Result<u16, AllocError> {
        let class = self.class(owner)?;
        let name_and_type = self.name_and_type(name, descriptor)?;
        self.pair(tag, class, name_and_type)
    }

    /// The items of which the class or the method has its attributes.
    fn begin_attribute(&mut self) -> &mut Vec<u8> {
        let items = match &mut self.method {
            Some(method) => &mut method.attributes,
            None => &mut self.attributes,
        };
        items.begin();
        &mut items.bytes
    }

    fn attribute(&mut self, name: &str, content: &[u8]) -> Result<(), AllocError> {
        let name = self.text(name)?;
        let bytes = self.begin_attribute();
        short(bytes, name)?;
        length(bytes, content.len())?;
        bytes.extend_from_slice(content)
    }

    /// An annotation in a table of its own, with these elements behind their count.
    fn annotation(&mut self, table: &str, class: &str, elements: &[u8]) -> Result<(), AllocError> {
        let descriptor = format!(in self.alloc; "L{class};")?;
        let class = self.text(descriptor.as_str())?;
        let mut content = Vec::from_slice(self.alloc, &[0, 1])?;
        short(&mut content, class)?;
        content.extend_from_slice(elements)?;
        self.attribute(table, content.as_slice())
    }

    fn note(&mut self, table: &str, class: &str) -> Result<(), AllocError> {
        self.annotation(table, class, &[0, 0])
    }

    /// The element `value`, one class of this descriptor.
    fn target(&mut self, elements: &mut Vec<u8>, descriptor: &str) -> Result<(), AllocError> {
        let value = self.text("value")?;
        let descriptor = self.text(descriptor)?;
        short(elements, value)?;
        elements.extend_from_slice(b"[\0\x01c")?;
        short(elements, descriptor)
    }

    fn priority(&mut self, elements: &mut Vec<u8>, priority: &str) -> Result<(), Fail> {
        let number = priority.parse::<i32>()?;
        let priority = self.text("priority")?;
        let number = self.entry(3, &number.to_be_bytes())?;
        short(elements, priority)?;
        elements.push(b'I')?;
        Ok(short(elements, number)?)
    }

    /// `@Mixin` on the class of this descriptor, with a priority in front (`PRIORITY,DESCRIPTOR`) or
    /// behind (`DESCRIPTOR,PRIORITY`) or with none.
    fn mixin(&mut self, value: &str) -> Result<(), Fail> {
        let mut elements = Vec::new(self.alloc);
        match value.split_once(',') {
            None => {
                short(&mut elements, 1)?;
                self.target(&mut elements, value)?;
            }
            Some((target, priority)) if target.starts_with('L') => {
                short(&mut elements, 2)?;
                self.target(&mut elements, target)?;
                self.priority(&mut elements, priority)?;
            }
            Some((priority, target)) => {
                short(&mut elements, 2)?;
                self.priority(&mut elements, priority)?;
                self.target(&mut elements, target)?;
            }
        }
        Ok(self.annotation("RuntimeInvisibleAnnotations", MIXIN, elements.as_slice())?)
    }

    fn field(&mut self, descriptor: &str) -> Result<(), AllocError> {
        let name = self.text("x")?;
        let descriptor = self.text(descriptor)?;
        self.fields.begin();
        short(&mut self.fields.bytes, 0x0009)?;
        short(&mut self.fields.bytes, name)?;
        short(&mut self.fields.bytes, descriptor)?;
        short(&mut self.fields.bytes, 0)
    }

    fn begin_method(&mut self, name: &str, descriptor: &str) -> Result<(), AllocError> {
        self.end_method()?;
        let name = self.text(name)?;
        let descriptor = self.text(descriptor)?;
        self.method = Some(Method {
            name,
            descriptor,
            code: Vec::new(self.alloc),
            kept: Items::new(self.alloc),
            attributes: Items::new(self.alloc),
        });
        Ok(())
    }

    /// Ends the method, if there is one, with `return`, eight words on the stack and eight locals.
    fn end_method(&mut self) -> Result<(), AllocError> {
        let Some(method) = self.method.take() else {
            return Ok(());
        };
        let name = self.text("Code")?;
        let mut code = method.code;
        code.push(0xb1)?;
        self.methods.begin();
        let bytes = &mut self.methods.bytes;
        short(bytes, 0x0009)?;
        short(bytes, method.name)?;
        short(bytes, method.descriptor)?;
        short(bytes, method.attributes.count.saturating_add(1))?;
        short(bytes, name)?;
        let kept = method.kept.bytes.len();
        length(bytes, code.len().saturating_add(12).saturating_add(kept))?;
        bytes.extend_from_slice(&[0, 8, 0, 8])?;
        length(bytes, code.len())?;
        bytes.extend_from_slice(code.as_slice())?;
        short(bytes, 0)?;
        list(bytes, &method.kept)?;
        bytes.extend_from_slice(method.attributes.bytes.as_slice())
    }

    fn insn(&mut self, op: u8, operands: &[u8]) -> Result<(), Fail> {
        let Some(method) = &mut self.method else {
            return Err(Fail::from("an instruction outside of a method"));
        };
        method.code.push(op)?;
        Ok(method.code.extend_from_slice(operands)?)
    }

    fn reference(&mut self, op: u8, tag: u8, value: &str, descriptor: &str) -> Result<(), Fail> {
        let (owner, name) = value.split_once('.').ok_or("a member of a class")?;
        let member = self.member(tag, owner, name, descriptor)?;
        self.insn(op, &member.to_be_bytes())
    }

    fn push(&mut self, value: &str) -> Result<(), Fail> {
        let number = value.parse::<u8>()?;
        self.insn(0x10, &[number])
    }

    /// An attribute of the code: that its first instruction stands in line 7.
    fn code_attribute(&mut self, name: &str) -> Result<(), Fail> {
        let name = self.text(name)?;
        let Some(method) = &mut self.method else {
            return Err(Fail::from("an attribute of code outside of a method"));
        };
        method.kept.begin();
        let bytes = &mut method.kept.bytes;
        short(bytes, name)?;
        Ok(bytes.extend_from_slice(&[0, 0, 0, 6, 0, 1, 0, 0, 0, 7])?)
    }
}

impl Assembler {
    /// A class below `java/lang/Object`.
    fn begin(&mut self, name: &str) -> Result<(), AllocError> {
        self.name = self.class(name)?;
        self.superclass = self.class("java/lang/Object")?;
        Ok(())
    }

    fn versions(&mut self, value: &str) -> Result<(), Fail> {
        let (major, minor) = value.split_once('.').unwrap_or((value, "0"));
        self.version = (major.parse::<u16>()?, minor.parse::<u16>()?);
        Ok(())
    }

    /// An attribute with so many zeros.
    fn padding(&mut self, value: &str) -> Result<(), Fail> {
        let mut content = Vec::new(self.alloc);
        for _ in 0..value.parse::<u16>()? {
            content.push(0)?;
        }
        Ok(self.attribute("Padding", content.as_slice())?)
    }

    /// Adds a method `()V` with `@Overwrite`.
    fn overwrite(&mut self, name: &str) -> Result<(), AllocError> {
        self.begin_method(name, "()V")?;
        self.note("RuntimeInvisibleAnnotations", OVERWRITE)
    }

    /// Adds what a word tells of the pool and of the class itself.
    fn class_word(&mut self, kind: &str, value: &str) -> Result<(), Fail> {
        match kind {
            "class" => Ok(self.begin(value)?),
            "version" => self.versions(value),
            "on" => self.mixin(value),
            "field" => Ok(self.field(value)?),
            "padding" => self.padding(value),
            "kept" => Ok(self.attribute(value, &[0, 1])?),
            "names" => Ok(drop(self.class(value)?)),
            "typed" => Ok(drop(self.name_and_type("x", value)?)),
            "method-type" => {
                let descriptor = self.text(value)?;
                Ok(drop(self.entry(16, &descriptor.to_be_bytes())?))
            }
            _ => Err(Fail::from("a word of another kind")),
        }
    }

    /// Adds what a word tells: of a method, of the class or the method begun last, or of the class.
    fn word(&mut self, kind: &str, value: &str) -> Result<(), Fail> {
        match kind {
            "main" => Ok(self.begin_method("main", "([Ljava/lang/String;)V")?),
            "def" => Ok(self.begin_method(value, "()V")?),
            "over" => Ok(self.overwrite(value)?),
            "out" => self.reference(0xb2, 9, "java/lang/System.out", "Ljava/io/PrintStream;"),
            "push" => self.push(value),
            "println" => self.reference(0xb6, 10, "java/io/PrintStream.println", "(I)V"),
            "call" => self.reference(0xb8, 10, value, "()V"),
            "code-kept" => self.code_attribute(value),
            "note" => Ok(self.note("RuntimeInvisibleAnnotations", value)?),
            "seen" => Ok(self.note("RuntimeVisibleAnnotations", value)?),
            _ => self.class_word(kind, value),
        }
    }

    /// The bytes of the class.
    fn finish(mut self) -> Result<Vec<u8>, AllocError> {
        self.end_method()?;
        let (major, minor) = self.version;
        let mut bytes = Vec::from_slice(self.alloc, &[0xca, 0xfe, 0xba, 0xbe])?;
        short(&mut bytes, minor)?;
        short(&mut bytes, major)?;
        short(&mut bytes, self.pool.count.saturating_add(1))?;
        bytes.extend_from_slice(self.pool.bytes.as_slice())?;
        short(&mut bytes, 0x0021)?;
        short(&mut bytes, self.name)?;
        short(&mut bytes, self.superclass)?;
        short(&mut bytes, 0)?;
        list(&mut bytes, &self.fields)?;
        list(&mut bytes, &self.methods)?;
        list(&mut bytes, &self.attributes)?;
        Ok(bytes)
    }
}

/// The bytes of the class that these words tell.
pub(crate) fn assemble(alloc: Global, words: &str) -> Result<Vec<u8>, Fail> {
    let mut assembler = Assembler::new(alloc);
    for word in words.split_whitespace() {
        let (kind, value) = word.split_once(':').unwrap_or((word, ""));
        assembler.word(kind, value)?;
    }
    Ok(assembler.finish()?)
}
