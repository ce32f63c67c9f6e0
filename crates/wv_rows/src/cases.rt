//! Cases as text: the lines that change the small folder, and how the loader ends over what they make.

use crate::disassembler::words_of;
use crate::files::{Files, folder, small};
use crate::outside::{NONE, Outcome, WEAVE, run};
use std::process::Abort;
use std::test::Fail;
use wv_base::Folder;
use wv_top::Status;
use wv_tree::PutFile;

/// That a file was put as the line says: `PATH < SOURCE`, with the bytes of a file of the folder, or
/// `PATH is WORDS`, a class of these words.
fn is_put(
    rt: &(impl Abort + AllocGlobal),
    files: &Files<'_>,
    put: &PutFile,
    line: &str,
) -> Result<(), Fail> {
    assert_eq!(rt; put.folder.as_str(), "o");
    if let Some((path, source)) = line.split_once(" < ") {
        assert_eq!(rt; put.path.as_str(), path, "{line}");
        let bytes = files.get(source).ok_or("a file that is there")?;
        assert!(rt; put.bytes.as_slice() == bytes.as_slice(), "{line}");
        return Ok(());
    }
    let (path, words) = line.split_once(" is ").ok_or("a path and a class")?;
    assert_eq!(rt; put.path.as_str(), path, "{line}");
    let found = words_of(rt.alloc(), put.bytes.as_slice())?;
    assert_eq!(rt; found.as_str(), words);
    Ok(())
}

/// That the files were put as the lines say, in their order.
fn are_put(
    rt: &(impl Abort + AllocGlobal),
    files: &Files<'_>,
    outcome: &Outcome,
    lines: &str,
) -> Result<(), Fail> {
    let put = outcome.put.files();
    assert_eq!(rt; put.len(), lines.lines().count(), "{lines}");
    for (file, line) in put.iter().zip(lines.lines()) {
        is_put(rt, files, file, line)?;
    }
    Ok(())
}

/// That the call prints this line, and ends with the status that belongs to it.
pub(crate) fn prints(
    rt: &(impl Abort + AllocGlobal),
    call: &str,
    folder: Folder,
    line: &str,
) -> Result<Outcome, Fail> {
    let outcome = run(rt.alloc(), call, folder, NONE)?;
    let wanted = format!(in rt.alloc(); "{line}\n")?;
    assert_eq!(rt; outcome.printed.as_str(), wanted.as_str());
    let status = if line.starts_with("refused: ") {
        Status::Refused
    } else {
        Status::Done
    };
    assert_eq!(rt; outcome.status, status, "{line}");
    Ok(outcome)
}

/// That the call over these files prints the first line of the end, and puts the files of the other
/// lines.
pub(crate) fn ends(
    rt: &(impl Abort + AllocGlobal),
    call: &str,
    files: &Files<'_>,
    end: &str,
) -> Result<(), Fail> {
    let (line, put) = end.split_once('\n').unwrap_or((end, ""));
    let outcome = prints(rt, call, folder(rt, files)?, line)?;
    are_put(rt, files, &outcome, put)
}

/// That `weave f --out o` ends as each of the cases says, one after the other with an empty line between
/// them. A case is the lines that change the small folder, and behind `=> ` the line that is printed
/// and the files that are put.
pub(crate) fn each_ends(
    rt: &(impl Abort + AllocGlobal),
    call: &str,
    cases: &str,
) -> Result<(), Fail> {
    for case in cases.split("\n\n") {
        let (changes, end) = case.split_once("=> ").ok_or("a case with an end")?;
        let files = small(rt.alloc(), changes)?;
        ends(rt, call, &files, end)?;
    }
    Ok(())
}

/// The same of rules that are broken: a case ends with the place of the first.
pub(crate) fn each_refuses(rt: &(impl Abort + AllocGlobal), cases: &str) -> Result<(), Fail> {
    for case in cases.split("\n\n") {
        let (changes, broken) = case.split_once("=> ").ok_or("a case with an end")?;
        let files = small(rt.alloc(), changes)?;
        let line = format!(in rt.alloc(); "refused: rule {broken}")?;
        ends(rt, WEAVE, &files, line.as_str())?;
    }
    Ok(())
}
