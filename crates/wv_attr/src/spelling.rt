//! Writing the parts of a table.
ghost use Rattle.std.specs.Prelude.{◌≡◌, ◌∷◌, ◌++◌, OnOk};
ghost use Rattle.wv_attr.specs.Marks.{two_bytes, mark_bytes, table_bytes};

use crate::mark::Mark;
use wv_base::Memory;

/// Writes a number at the end.
fn put_number(out: &mut Vec<u8>, number: u16) -> Result<(), Memory>
    ensures { OnOk result (out.new.items ≡ out.old.items ++ two_bytes number) }
{
    out.push((number / 256) as u8)?;
    out.push((number % 256) as u8)?;
    Ok(())
}

/// Writes a tag and a number at the end.
fn put_tagged(out: &mut Vec<u8>, tag: u8, number: u16) -> Result<(), Memory>
    ensures { OnOk result (out.new.items ≡ out.old.items ++ tag ∷ two_bytes number) }
{
    out.push(tag)?;
    put_number(out, number)
}

fn put_mark(out: &mut Vec<u8>, mark: Mark) -> Result<(), Memory>
    ensures { OnOk result (out.new.items ≡ out.old.items ++ mark_bytes mark) }
{
    match mark {
        Mark::List { count } => put_number(out, count),
        Mark::Annotation { class, count } => {
            put_number(out, class)?;
            put_number(out, count)
        }
        Mark::Name { name } => put_number(out, name),
        Mark::Constant { tag, value } => put_tagged(out, tag, value),
        Mark::Enum { descriptor, name } => {
            put_tagged(out, b'e', descriptor)?;
            put_number(out, name)
        }
        Mark::Class { descriptor } => put_tagged(out, b'c', descriptor),
        Mark::Nested => {
            out.push(b'@')?;
            Ok(())
        }
        Mark::Array { count } => put_tagged(out, b'[', count),
    }
}

/// Writes the parts at the end.
pub(crate) fn put_marks(out: &mut Vec<u8>, marks: &[Mark]) -> Result<(), Memory>
    ensures { OnOk result (out.new.items ≡ out.old.items ++ table_bytes marks.now) }
{
    for mark in marks {
        put_mark(out, *mark)?;
    }
    Ok(())
}
