//! What makes two entries name one constant.
ghost use Rattle.std.specs.Prelude.{◌≡◌};

use wv_base::Name;

/// An entry with, in place of each number, the least number that names the same: entries that name
/// one constant have one key, and no key but a text's holds a text.
#[derive(Debug, Drop)]
pub(crate) enum Key {
    Utf8(Name),
    Integer(i32),
    Float(u32),
    Long(i64),
    Double(u64),
    Class(u16),
    String(u16),
    Field(u16, u16),
    Method(u16, u16),
    InterfaceMethod(u16, u16),
    NameAndType(u16, u16),
    MethodHandle(u8, u16),
    MethodType(u16),
    InvokeDynamic(u16, u16),
}

impl Key {
    ghost use Rattle.wv_pool.specs.Keys.{words_of};

    /// The tag and the fields, by which keys other than texts are told apart.
    pub(crate) fn words(&self) -> [u64; 3]
        ensures { result ≡ words_of self.now }
    {
        match self {
            Key::Utf8(_) => [1, 0, 0],
            Key::Integer(value) if *value >= 0 => [3, 0, *value as u64],
            Key::Integer(value) => [3, 1, (-1 - *value) as u64],
            Key::Float(bits) => [4, *bits as u64, 0],
            Key::Long(value) if *value >= 0 => [5, 0, *value as u64],
            Key::Long(value) => [5, 1, (-1 - *value) as u64],
            Key::Double(bits) => [6, *bits, 0],
            Key::Class(name) => [7, *name as u64, 0],
            Key::String(text) => [8, *text as u64, 0],
            Key::Field(class, pair) => [9, *class as u64, *pair as u64],
            Key::Method(class, pair) => [10, *class as u64, *pair as u64],
            Key::InterfaceMethod(class, pair) => [11, *class as u64, *pair as u64],
            Key::NameAndType(name, descriptor) => [12, *name as u64, *descriptor as u64],
            Key::MethodHandle(kind, reference) => [15, *kind as u64, *reference as u64],
            Key::MethodType(descriptor) => [16, *descriptor as u64, 0],
            Key::InvokeDynamic(bootstrap, pair) => [18, *bootstrap as u64, *pair as u64],
        }
    }
}
