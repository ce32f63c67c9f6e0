//! What the grammars say of a text, found once for each text.
ghost use Rattle.std.specs.Prelude.{List, ℕ, ◌↔◌, IsTrue};

use wv_base::{
    Name, is_class_constant, is_field_descriptor, is_field_name, is_method_descriptor,
    is_method_name,
};

/// What a number's place may ask of the text that it names.
#[derive(Clone, Copy, Debug, PartialEq, Eq)]
pub(crate) enum Grammar {
    Any,
    /// The name in a Class constant.
    Class,
    Unqualified,
    /// An unqualified name in which `<` or `>` stands, and not a special method's.
    Angle,
    /// `<init>`.
    Init,
    /// Neither `<init>` nor `<clinit>`.
    Ordinary,
    Field,
    Method,
    /// A field's or a method's descriptor.
    Descriptor,
}

/// What the grammars say of a text.
#[derive(Clone, Copy, Debug, PartialEq, Eq)]
pub(crate) struct Facts {
    pub class: bool,
    pub unqualified: bool,
    pub angle: bool,
    pub init: bool,
    pub ordinary: bool,
    pub field: bool,
    pub method: bool,
}

impl Facts {
    ghost use Rattle.wv_pool.specs.Facts.{AreFacts, Meets};

    pub(crate) fn of(name: &Name) -> Facts
        ensures { AreFacts name.now result }
    {
        let unqualified = is_field_name(name);
        let init = name.is_ascii("<init>");
        let clinit = name.is_ascii("<clinit>");
        Facts {
            class: is_class_constant(name),
            unqualified,
            angle: unqualified && !is_method_name(name),
            init,
            ordinary: !init && !clinit,
            field: is_field_descriptor(name),
            method: is_method_descriptor(name),
        }
    }

    /// Whether the text of these facts meets the grammar.
    pub(crate) fn meet(&self, grammar: Grammar) -> bool
        ensures { (name : List ℕ) → AreFacts name self.now → (IsTrue result ↔ Meets grammar name) }
    {
        match grammar {
            Grammar::Any => true,
            Grammar::Class => self.class,
            Grammar::Unqualified => self.unqualified,
            Grammar::Angle => self.angle,
            Grammar::Init => self.init,
            Grammar::Ordinary => self.ordinary,
            Grammar::Field => self.field,
            Grammar::Method => self.method,
            Grammar::Descriptor => self.field || self.method,
        }
    }
}
