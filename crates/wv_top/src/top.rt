//! The top call.
ghost use Rattle.std.specs.Prelude.{◌≡◌, OnOk, OnErr};
ghost use Rattle.wv_base.specs.Line.{refusal};
ghost use Rattle.wv_tree.specs.Fault.{HasSinkCause};
ghost use Rattle.wv_tree.specs.Sink.{with_bytes, AddsFirst};
ghost use Rattle.wv_top.specs.Words.{command_of, texts};
ghost use Rattle.wv_top.specs.Puts.{Puts};
ghost use Rattle.wv_top.specs.Ends.{FitsWords, FitsRules, TellsReading, TellsWriting, KeepsOutlet, Prints, IsDone};

use crate::put::put_files;
use crate::reading::read_folder;
use crate::rules::weave_reading;
use crate::status::Status;
use crate::summary::summary_line;
use crate::words::command_of;
use std::alloc::Global;
use wv_base::{Broken, LINE, write_broken};
use wv_front::WeaveFault;
use wv_tree::{IoFault, Outlet, Sink, SinkFault, Tree};

const USAGE: &[u8] = b"usage: loader weave|run|list FOLDER [options] | gen NUMBER SIZE --out DIR\n";

/// Writes the line of a broken rule.
fn write_refusal<S: Sink>(sink: &mut S, broken: &Broken) -> Result<(), SinkFault>
    ensures cause { HasSinkCause result (S.faults sink.old) (S.faults sink.new) }
    ensures ok { OnOk result (S.told sink.new ≡ with_bytes (refusal broken.now) (S.told sink.old)) }
    ensures err { OnErr result (AddsFirst (refusal broken.now) (S.told sink.old) (S.told sink.new)) }
{
    let mut line = [0; LINE];
    let length = write_broken(broken, &mut line);
    sink.write(&line[..length])
}

/// Does what the words say, of which the first is the program's name: `weave FOLDER --out DIR`, and
/// maybe `--side client` or `--side server` behind it, reads the folder, weaves it for the side, puts
/// the written classes and writes one summary line.
///
/// Everything is read before a rule is asked, and every rule is asked before a file is put.
pub fn loader<T: Tree, O: Outlet, S: Sink>(
    alloc: Global,
    words: &[String],
    tree: &mut T,
    outlet: &mut O,
    sink: &mut S,
) -> Status
    ensures words { FitsWords (command_of (texts words.now)) result }
    ensures rules { FitsRules (command_of (texts words.now)) (T.told tree.old) result }
    ensures reading { TellsReading result (T.faults tree.old) (T.faults tree.new) }
    ensures writing { TellsWriting result (O.faults outlet.old) (O.faults outlet.new) (S.faults sink.old) (S.faults sink.new) }
    ensures outlet { KeepsOutlet result outlet.old outlet.new }
    ensures puts { Puts (command_of (texts words.now)) (T.told tree.old) result
        (O.told outlet.old) (O.told outlet.new) }
    ensures printed { Prints (command_of (texts words.now)) (T.told tree.old) result
        (S.told sink.old) (S.told sink.new) }
    ensures done { IsDone result (command_of (texts words.now)) (T.told tree.old)
        (O.told outlet.old) (O.told outlet.new) (S.told sink.old) (S.told sink.new) }
{
    let Some(command) = command_of(words) else {
        return match sink.write(USAGE) {
            Ok(()) => Status::Usage,
            Err(_) => Status::WriteFault,
        };
    };
    let reading = match read_folder(alloc, tree, command.folder) {
        Ok(reading) => reading,
        Err(IoFault::Failed) => return Status::ReadFault,
        Err(IoFault::Memory) => return Status::Memory,
    };
    let woven = match weave_reading(alloc, &reading, command.side) {
        Ok(woven) => woven,
        Err(WeaveFault::Broken(broken)) => {
            return match write_refusal(sink, &broken) {
                Ok(()) => Status::Refused,
                Err(_) => Status::WriteFault,
            };
        }
        Err(WeaveFault::Memory) => return Status::Memory,
    };
    let Ok(line) = summary_line(alloc, &woven) else {
        return Status::Memory;
    };
    match put_files(alloc, outlet, command.out, &woven.files) {
        Ok(()) => {}
        Err(IoFault::Failed) => return Status::WriteFault,
        Err(IoFault::Memory) => return Status::Memory,
    }
    match sink.write(line.as_bytes()) {
        Ok(()) => Status::Done,
        Err(_) => Status::WriteFault,
    }
}
