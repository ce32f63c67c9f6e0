//! The classes in descriptors, and the form of small class files.
use crate::check_form;
use crate::splitting::{behind_l, parts};
use std::alloc::Global;
use std::test::Fail;
use wv_base::{Bytes, Folder, Name, Side, Text};
use wv_classes::{FolderClass, read_classes};
use wv_front::WeaveFault;

/// The class `app/E` of version 52, without members.
const SMALLEST: [u8; 57] = [
    0xca, 0xfe, 0xba, 0xbe, 0, 0, 0, 52, 0, 5, 7, 0, 2, 1, 0, 5, b'a', b'p', b'p', b'/', b'E', 7,
    0, 4, 1, 0, 16, b'j', b'a', b'v', b'a', b'/', b'l', b'a', b'n', b'g', b'/', b'O', b'b', b'j',
    b'e', b'c', b't', 0, 0x21, 0, 1, 0, 3, 0, 0, 0, 0, 0, 0, 0, 0,
];

/// Where the class has the lower byte of its flags.
const FLAGS: usize = 44;

/// The bytes of a class file: a thin class, one that isn't public, or no class.
fn content(alloc: Global, word: &str) -> Result<Bytes, Fail> {
    let mut bytes = SMALLEST;
    match word {
        "thin" => {}
        "hidden" => bytes[FLAGS] = 0x20,
        _ => return Ok(Bytes::from_slice(alloc, word.as_bytes())?),
    }
    Ok(Bytes::from_slice(alloc, &bytes)?)
}

fn add(alloc: Global, folder: &mut Folder, path: &str, word: &str) -> Result<(), Fail> {
    let path = Text::from_str(alloc, path)?;
    if !folder.takes(&path) {
        return Err(Fail::from("a path out of order"));
    }
    folder.push(path, content(alloc, word)?)?;
    Ok(())
}

/// A class file of this path and name.
fn class_file(alloc: Global, path: &str, name: &str, word: &str) -> Result<FolderClass, Fail> {
    let mut folder = Folder::new(alloc);
    add(alloc, &mut folder, "game/app/E.class", word)?;
    let mut files = read_classes(alloc, &folder, Side::Client)?;
    match files.pop() {
        Some(file) => Ok(FolderClass {
            path: Text::from_str(alloc, path)?,
            name: Text::from_str(alloc, name)?,
            read: file.read,
        }),
        None => Err(Fail::from("no class file")),
    }
}

/// The path at which the form is broken, or nothing.
fn refused_at(
    alloc: Global,
    folder: &Folder,
    classes: &[FolderClass],
) -> Result<Option<Text>, Fail> {
    match check_form(alloc, folder, classes) {
        Ok(()) => Ok(None),
        Err(WeaveFault::Broken(broken)) => Ok(Some(broken.place.file)),
        Err(WeaveFault::Memory) => Err(Fail::from("out of memory")),
    }
}

#[test]
fn classes_in_descriptors(rt: HostRuntime) -> Result<(), Fail> {
    let alloc = rt.alloc();
    for (descriptor, first, second) in [
        ("(ILa/B;[[Lc/D;J)V", "a/B", "c/D"),
        ("()Le;", "e", ""),
        ("La/Lb;", "a/Lb", ""),
        ("[I", "", ""),
    ] {
        let descriptor = Name::from_ascii(alloc, descriptor)?;
        let parts = parts(alloc, descriptor.units())?;
        let mut names = Vec::new(alloc);
        for part in parts.as_slice() {
            if let Some(name) = behind_l(part) {
                names.push(Name::from_slice(alloc, name)?)?;
            }
        }
        for (place, wanted) in [first, second].iter().enumerate() {
            match names.get(place) {
                Some(name) => assert!(rt; name.is_ascii(wanted)),
                None => assert!(rt; wanted.is_empty()),
            }
        }
    }
    Ok(())
}

#[test]
fn the_first_without_the_form(rt: HostRuntime) -> Result<(), Fail> {
    let alloc = rt.alloc();
    for (word, name, other_word, other_name, wanted) in [
        ("thin", "app/E", "thin", "app/F", ""),
        ("hidden", "app/E", "hidden", "app/F", "a.class"),
        ("thin", "app/E", "hidden", "app/F", "b.class"),
        // What is no class isn't asked, but its name counts.
        ("none", "app/E", "thin", "app/F", ""),
        ("none", "app/E", "thin", "app/E", "b.class"),
        ("thin", "app/E", "thin", "app/E", "a.class"),
    ] {
        let mut folder = Folder::new(alloc);
        add(alloc, &mut folder, "a.class", word)?;
        add(alloc, &mut folder, "b.class", other_word)?;
        let mut classes = Vec::new(alloc);
        classes.push(class_file(alloc, "a.class", name, word)?)?;
        classes.push(class_file(alloc, "b.class", other_name, other_word)?)?;
        match refused_at(alloc, &folder, classes.as_slice())? {
            Some(path) => assert_eq!(rt; path.as_str(), wanted),
            None => assert_eq!(rt; "", wanted),
        }
    }
    Ok(())
}
