//! The line that sums up a weave.
ghost use Rattle.std.specs.Prelude.{◌≡◌, ◌<◌, ◌++◌, decimal, OnOk, IfOk, string_bytes, string_len};
ghost use Rattle.wv_top.specs.Lines.{summary_of};

use itoa::Buffer;
use std::alloc::{AllocError, Global};
use wv_weave::Woven;

/// Adds a text and a count behind it.
fn push_count(line: &mut String, text: &str, count: usize) -> Result<(), AllocError>
    ensures { OnOk result (string_bytes line.new ≡ string_bytes line.old ++ text.now ++ decimal count) }
{
    let mut buffer = Buffer::new();
    line.push_str(text)?;
    line.push_str(buffer.format(count))
}

/// How many classes were written and edited, how many mixins were applied, and how many hooks they
/// have.
#[tactic(auto, unfolding(crate::specs::Lines::summary_line))]
pub(crate) fn summary_line(alloc: Global, woven: &Woven) -> Result<String, AllocError>
    ensures line { IfOk result (λ line. string_bytes line ≡ summary_of woven.now) }
    ensures some { IfOk result (λ line. 0 < string_len line) }
{
    let mut line = String::new(alloc);
    push_count(&mut line, "woven ", woven.files.len())?;
    push_count(&mut line, " classes, ", woven.edited)?;
    push_count(&mut line, " edited, ", woven.mixins)?;
    push_count(&mut line, " mixins, ", woven.hooks)?;
    line.push_str(" hooks\n")?;
    Ok(line)
}
