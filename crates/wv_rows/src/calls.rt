//! Calls that end otherwise: words that are no command, and an outside that fails.

use crate::files::{folder, small};
use crate::outside::{Failing, NONE, Outcome, WEAVE, run};
use std::process::Abort;
use std::test::Fail;
use wv_base::Folder;
use wv_top::Status;

const USAGE: &str = "usage: loader weave|run|list FOLDER [options] | gen NUMBER SIZE --out DIR\n";

const WOVEN: &str = "woven 1 classes, 1 edited, 1 mixins, 0 hooks\n";

/// A mixin that overwrites a method that isn't there.
const LACKING: &str =
    "mods/alpha/alpha/mixin/MainMixin.class = class:alpha/mixin/MainMixin on:Lapp/Main; over:gone";

const REFUSED: &str =
    "refused: rule 51 OverwriteMissing at mods/alpha/alpha/mixin/MainMixin.class:gone()V wanted app/Main.gone()V found -\n";

fn has_ended(rt: &impl Abort, outcome: &Outcome, status: Status, put: usize, printed: &str) {
    assert_eq!(rt; outcome.status, status);
    assert_eq!(rt; outcome.put.files().len(), put);
    assert_eq!(rt; outcome.printed.as_str(), printed);
}

#[test]
fn words_that_are_no_command_are_answered(rt: HostRuntime) -> Result<(), Fail> {
    let alloc = rt.alloc();
    for line in [
        "",
        "loader",
        "loader weave",
        "loader weave f --out -o",
        "loader weave f --out o p",
        "loader weave f --out o --side",
        "loader weave f --out o --side both",
        "loader weave f --out o -side server",
        "loader run f --out o",
    ] {
        let outcome = run(alloc, line, Folder::new(alloc), NONE)?;
        has_ended(&rt, &outcome, Status::Usage, 0, USAGE);
    }
    let failing = Failing {
        tree: 1,
        outlet: 1,
        sink: 1,
    };
    let outcome = run(alloc, "loader", Folder::new(alloc), failing)?;
    has_ended(&rt, &outcome, Status::WriteFault, 0, "");
    Ok(())
}

/// What is changed in the small folder, the calls of the tree, the outlet and the sink that fail, and how
/// the call ends.
///
/// The tree is called for entering, listing and five files, the outlet for entering and one file,
/// and the sink for one line. A broken rule keeps the outlet from being called.
const ENDINGS: [(&str, [u64; 3], Status, usize, &str); 8] = [
    ("", [8, 3, 2], Status::Done, 1, WOVEN),
    ("", [0, 1, 0], Status::WriteFault, 0, ""),
    ("", [0, 2, 0], Status::WriteFault, 0, ""),
    ("", [0, 0, 1], Status::WriteFault, 1, ""),
    (LACKING, [8, 1, 2], Status::Refused, 0, REFUSED),
    (LACKING, [0, 0, 1], Status::WriteFault, 0, ""),
    (LACKING, [7, 1, 1], Status::ReadFault, 0, ""),
    ("", [1, 1, 1], Status::ReadFault, 0, ""),
];

#[test]
fn each_failing_call_is_answered(rt: HostRuntime) -> Result<(), Fail> {
    let alloc = rt.alloc();
    for (changes, [tree, outlet, sink], status, put, printed) in ENDINGS {
        let failing = Failing { tree, outlet, sink };
        let folder = folder(&rt, &small(alloc, changes)?)?;
        let outcome = run(alloc, WEAVE, folder, failing)?;
        has_ended(&rt, &outcome, status, put, printed);
    }
    for tree in 1..=7 {
        let failing = Failing { tree, ..NONE };
        let folder = folder(&rt, &small(alloc, "")?)?;
        let outcome = run(alloc, WEAVE, folder, failing)?;
        has_ended(&rt, &outcome, Status::ReadFault, 0, "");
    }
    Ok(())
}
