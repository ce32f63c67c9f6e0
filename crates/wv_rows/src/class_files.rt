//! Class files of the form, byte for byte: each cut and each condition broken once.

use crate::assembler::assemble;
use crate::cases::{each_refuses, ends};
use crate::files::{Files, MAIN_CLASS, MIXIN_CLASS, small};
use crate::outside::WEAVE;
use std::alloc::Global;
use std::process::Abort;
use std::test::Fail;
use wv_class::{is_formed, read_class, write_class};

/// Bytes of a file, and what stands in their place where a condition is broken.
type Edit = (&'static [u8], &'static [u8]);

/// The bytes in which the first ones that the edit names are replaced.
fn edited(alloc: Global, bytes: &[u8], edit: Edit) -> Result<Vec<u8>, Fail> {
    let (old, new) = edit;
    for place in 0..bytes.len() {
        if bytes[place..].starts_with(old) {
            let mut made = Vec::from_slice(alloc, &bytes[..place])?;
            made.extend_from_slice(new)?;
            for byte in bytes.iter().skip(place.saturating_add(old.len())) {
                made.push(*byte)?;
            }
            return Ok(made);
        }
    }
    Err(Fail::from("bytes that are there"))
}

/// The bytes of the file with this path.
fn bytes_at<'a>(files: &'a Files<'_>, path: &str) -> Result<&'a [u8], Fail> {
    Ok(files.get(path).ok_or("a file that is there")?.as_slice())
}

/// That a rule is broken at the file with this path, where it has these bytes.
fn refuses(
    rt: &(impl Abort + AllocGlobal),
    mut files: Files<'static>,
    path: &'static str,
    bytes: Vec<u8>,
    found: (&str, &str),
) -> Result<(), Fail> {
    let (rule, found) = found;
    files.insert(path, bytes)?;
    let line = format!(in rt.alloc(); "refused: rule {rule} at {path} wanted {found}")?;
    ends(rt, WEAVE, &files, line.as_str())
}

/// That a rule is broken at the file with this path, where it is edited.
fn refuses_edit(
    rt: &(impl Abort + AllocGlobal),
    files: Files<'static>,
    path: &'static str,
    edit: Edit,
    found: (&str, &str),
) -> Result<(), Fail> {
    let bytes = edited(rt.alloc(), bytes_at(&files, path)?, edit)?;
    refuses(rt, files, path, bytes, found)
}

/// Of the game's class, against the form: its own words, its methods and their code.
const MAIN_EDITS: [Edit; 7] = [
    (b"\x00\x21\x00\x02", b"\x00\x20\x00\x02"),
    (b"java/lang/Object", b"java/lang/Objecs"),
    (
        b"\x00\x04\x00\x00\x00\x00",
        b"\x00\x04\x00\x01\x00\x04\x00\x00",
    ),
    (b"\x00\x02\x00\x09", b"\x00\x02\x00\x01"),
    (b"([Ljava/lang/String;)V", b"([Ljava/lang/Strong;)V"),
    (b"\x00\x08\x00\x08", b"\x00\x08\x00\x00"),
    (b"\x00\x00\x00\x01\xb1", b"\x00\x00\x00\x01\x00"),
];

/// Of the mixin, against the form: its annotation, its method and the code.
const MIXIN_EDITS: [Edit; 11] = [
    (
        b"Lorg/spongepowered/asm/mixin/Mixin;",
        b"Lorg/spongepowered/asm/mixin/Mixis;",
    ),
    (b"value", b"valve"),
    (b"Lapp/Main;", b"Lapp/Mail;"),
    (b"()V", b"()I"),
    (
        b"Lorg/spongepowered/asm/mixin/Overwrite;",
        b"Lorg/spongepowered/asm/mixin/Overwrita;",
    ),
    (
        b"RuntimeInvisibleAnnotations",
        b"RuntimeInvisibleAnnotationz",
    ),
    (b"\x00\x08\x00\x08", b"\x00\x01\x00\x08"),
    (b"(I)V", b"(J)V"),
    (b"java/lang/System", b"java/lang/Sister"),
    (b"Ljava/io/PrintStream;", b"Ljava/io/PrintStrean;"),
    (b"println", b"printed"),
];

const OUT_OF_FORM: (&str, &str) = ("9 OutOfForm", "- found -");

/// Classes that have an annotation of Mixin or MixinExtras that isn't built, or lack their own, and mixins with
/// another number of methods than one.
const NOT_OF_FORM: &str =
    r#"game/app/Main.class = class:app/Main seen:org/spongepowered/asm/mixin/Shadow main def:f
=> 9 OutOfForm at game/app/Main.class wanted - found -

game/app/Main.class = class:app/Main note:com/llamalad7/mixinextras/injector/ModifyReturnValue main def:f
=> 9 OutOfForm at game/app/Main.class wanted - found -

game/app/Main.class = class:app/Main main note:org/spongepowered/asm/mixin/Shadow def:f
=> 9 OutOfForm at game/app/Main.class wanted - found -

game/app/Main.class = class:app/Main main def:f seen:java/lang/Deprecated note:com/llamalad7/mixinextras/injector/ModifyReturnValue
=> 9 OutOfForm at game/app/Main.class wanted - found -

mods/alpha/alpha/mixin/MainMixin.class = class:alpha/mixin/MainMixin seen:org/spongepowered/asm/mixin/Shadow on:Lapp/Main; over:f
=> 9 OutOfForm at mods/alpha/alpha/mixin/MainMixin.class wanted - found -

mods/alpha/alpha/mixin/MainMixin.class = class:alpha/mixin/MainMixin over:f
=> 9 OutOfForm at mods/alpha/alpha/mixin/MainMixin.class wanted - found -

mods/alpha/alpha/mixin/MainMixin.class = class:alpha/mixin/MainMixin on:Lapp/Main; over:f note:com/llamalad7/mixinextras/injector/ModifyReturnValue
=> 9 OutOfForm at mods/alpha/alpha/mixin/MainMixin.class wanted - found -

mods/alpha/alpha/mixin/MainMixin.class = class:alpha/mixin/MainMixin on:Lapp/Main; over:f note:org/spongepowered/asm/mixin/Overwrite
=> 9 OutOfForm at mods/alpha/alpha/mixin/MainMixin.class wanted - found -

mods/alpha/alpha/mixin/MainMixin.class = class:alpha/mixin/MainMixin on:Lapp/Main; def:f seen:java/lang/Deprecated
=> 9 OutOfForm at mods/alpha/alpha/mixin/MainMixin.class wanted - found -

mods/alpha/alpha/mixin/MainMixin.class = class:alpha/mixin/MainMixin on:Lapp/Main;
=> 9 OutOfForm at mods/alpha/alpha/mixin/MainMixin.class wanted - found -

mods/alpha/alpha/mixin/MainMixin.class = class:alpha/mixin/MainMixin on:Lapp/Main; over:f over:g
=> 9 OutOfForm at mods/alpha/alpha/mixin/MainMixin.class wanted - found -"#;

#[test]
fn each_condition_of_the_form_is_asked(rt: HostRuntime) -> Result<(), Fail> {
    let alloc = rt.alloc();
    for edit in MAIN_EDITS {
        refuses_edit(&rt, small(alloc, "")?, MAIN_CLASS, edit, OUT_OF_FORM)?;
    }
    for edit in MIXIN_EDITS {
        refuses_edit(&rt, small(alloc, "")?, MIXIN_CLASS, edit, OUT_OF_FORM)?;
    }
    each_refuses(&rt, NOT_OF_FORM)
}

/// A class of 4,096 bytes is of the form, and one of a byte more isn't.
#[test]
fn a_class_has_at_most_4096_bytes(rt: HostRuntime) -> Result<(), Fail> {
    let alloc = rt.alloc();
    let front = "class:app/Main padding:";
    let bare = assemble(alloc, "class:app/Main padding:0 def:f")?.len();
    let most = 4096usize.saturating_sub(bare);
    for (padding, end) in [
        (
            most,
            "woven 1 classes, 1 edited, 1 mixins, 0 hooks\napp/Main.class is class:app/Main kept:Padding def:f out push:7 println",
        ),
        (
            most.saturating_add(1),
            "refused: rule 9 OutOfForm at game/app/Main.class wanted - found -",
        ),
    ] {
        let words = format!(in alloc; "{front}{padding} def:f")?;
        let mut files = small(alloc, "")?;
        files.insert(MAIN_CLASS, assemble(alloc, words.as_str())?)?;
        ends(&rt, WEAVE, &files, end)?;
    }
    Ok(())
}

/// Of the game's class, against the rules on class files.
const EDITS: [(Edit, &str, &str); 9] = [
    // The text `f` stands at 95, and no unit is spelled with these bytes.
    (
        (b"\x01\x00\x01f", b"\x01\x00\x01\x80"),
        "30 ClassBad",
        "layout found 95",
    ),
    (
        (b"\x01\x00\x01f", b"\x01\x00\x01\x00"),
        "30 ClassBad",
        "layout found 95",
    ),
    // The counts of ranges and of attributes behind the code of `main` stand at 174 and 176, and the
    // attribute's length leaves no room for another count than 0.
    (
        (b"\xb1\x00\x00\x00\x00", b"\xb1\x00\x01\x00\x00"),
        "30 ClassBad",
        "layout found 175",
    ),
    (
        (b"\xb1\x00\x00\x00\x00", b"\xb1\x00\x00\x00\x01"),
        "30 ClassBad",
        "layout found 177",
    ),
    // The pool ends at 136. The class's own number at 138 then names a String, the method at 148 has
    // no code, and the number at 150 names no method's name.
    (
        (b"\x07\x00\x01", b"\x08\x00\x01"),
        "30 ClassBad",
        "reference found 138",
    ),
    ((b"Code", b"Node"), "30 ClassBad", "reference found 148"),
    ((b"main", b"<ain"), "30 ClassBad", "reference found 150"),
    (
        (b"\x00\x00\x00\x34", b"\x00\x00\x00\x35"),
        "31 VersionOutside",
        "50 to 52 found 53",
    ),
    (
        (b"app/Main", b"app/Mail"),
        "32 NamePath",
        "app/Main found app/Mail",
    ),
];

/// The class app/E: the pool 1 Class 2, 2 app/E, 3 Class 4, 4 java/lang/Object, the flags 0021, the
/// class 1, the superclass 3 and four counts of 0.
const SMALLEST: [u8; 57] = [
    0xca, 0xfe, 0xba, 0xbe, 0, 0, 0, 0x34, 0, 5, 7, 0, 2, 1, 0, 5, 0x61, 0x70, 0x70, 0x2f, 0x45, 7,
    0, 4, 1, 0, 0x10, 0x6a, 0x61, 0x76, 0x61, 0x2f, 0x6c, 0x61, 0x6e, 0x67, 0x2f, 0x4f, 0x62, 0x6a,
    0x65, 0x63, 0x74, 0, 0x21, 0, 1, 0, 3, 0, 0, 0, 0, 0, 0, 0, 0,
];

/// Of the smallest class, the number of whose name stands at 11, its own at 45 and its superclass's at 47.
const SMALLEST_EDITS: [(Edit, &str); 10] = [
    // Its name's first or last unit spelled too long, from 16 or from 20 on. C1 begins no unit, and 81
    // follows no E0.
    (
        (b"\x00\x05app/E", b"\x00\x06\xc1\xa1pp/E"),
        "layout found 16",
    ),
    (
        (b"\x00\x05app/E", b"\x00\x06app/\xc1\x85"),
        "layout found 20",
    ),
    (
        (b"\x00\x05app/E", b"\x00\x07app/\xe0\x81\x85"),
        "layout found 21",
    ),
    // A Class in place of a text, and a text that is no class's name.
    ((b"\x07\x00\x02", b"\x07\x00\x03"), "reference found 11"),
    ((b"app/E", b"app;E"), "reference found 11"),
    // A text in place of a Class, and a class of arrays.
    (
        (b"\x00\x21\x00\x01", b"\x00\x21\x00\x02"),
        "reference found 45",
    ),
    ((b"app/E", b"[[[[I"), "reference found 45"),
    // A text, no number and the number behind the last.
    (
        (b"\x00\x01\x00\x03", b"\x00\x01\x00\x04"),
        "reference found 47",
    ),
    (
        (b"\x00\x01\x00\x03", b"\x00\x01\x00\x00"),
        "reference found 47",
    ),
    (
        (b"\x00\x01\x00\x03", b"\x00\x01\x00\x05"),
        "reference found 47",
    ),
];

/// Where the smallest class stands besides.
const SMALLEST_CLASS: &str = "game/app/E.class";

#[test]
fn each_rule_on_class_files_is_asked(rt: HostRuntime) -> Result<(), Fail> {
    let alloc = rt.alloc();
    for (edit, rule, found) in EDITS {
        refuses_edit(&rt, small(alloc, "")?, MAIN_CLASS, edit, (rule, found))?;
    }
    for (edit, found) in SMALLEST_EDITS {
        let bytes = edited(alloc, &SMALLEST, edit)?;
        refuses(
            &rt,
            small(alloc, "")?,
            SMALLEST_CLASS,
            bytes,
            ("30 ClassBad", found),
        )?;
    }
    Ok(())
}

/// A class file that ends too early breaks rule 30 at its end, and one with a byte more behind its last.
#[test]
fn a_cut_class_is_refused(rt: HostRuntime) -> Result<(), Fail> {
    let alloc = rt.alloc();
    let files = small(alloc, "")?;
    let whole = bytes_at(&files, MIXIN_CLASS)?;
    for length in 0..whole.len() {
        let cut = Vec::from_slice(alloc, &whole[..length])?;
        let found = format!(in alloc; "layout found {length}")?;
        refuses(
            &rt,
            small(alloc, "")?,
            MIXIN_CLASS,
            cut,
            ("30 ClassBad", found.as_str()),
        )?;
    }
    let mut longer = Vec::from_slice(alloc, &SMALLEST)?;
    longer.push(0)?;
    refuses(
        &rt,
        small(alloc, "")?,
        SMALLEST_CLASS,
        longer,
        ("30 ClassBad", "layout found 57"),
    )
}

/// A class that is written is read again, and its pool begins with the pool as it was read.
#[test]
fn a_written_class_is_read_again(rt: HostRuntime) -> Result<(), Fail> {
    let alloc = rt.alloc();
    let files = small(alloc, "")?;
    let bytes = bytes_at(&files, MAIN_CLASS)?;
    let class = read_class(alloc, bytes)?;
    assert!(rt; is_formed(alloc, &class)?);
    let written = write_class(alloc, &class)?;
    let written = written.as_slice();
    assert!(rt; written.len() > 100 && bytes.len() > 100);
    assert_eq!(rt; &written[10..100], &bytes[10..100]);
    let again = read_class(alloc, written)?;
    assert_eq!(rt; again.methods.len(), class.methods.len());
    Ok(())
}
