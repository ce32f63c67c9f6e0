//! How a list of annotations is divided into tables.
ghost use Rattle.std.specs.Prelude.{◌≡◌, ◌∷◌, ◌<◌, ◌≤◌, length, take, drop};
ghost use Rattle.wv_class.specs.Tables.{parameters_follow, follows, tables_of};

use wv_base::Note;

fn parameters_follow(one: Option<u8>, next: Option<u8>) -> bool
    ensures { result ≡ parameters_follow one next }
{
    match (one, next) {
        (None, None) => true,
        (Some(place), Some(next)) => place <= next,
        _ => false,
    }
}

/// Whether the second may stand behind the first in one table.
fn follows(one: &Note, next: &Note) -> bool
    ensures { result ≡ follows one.now next.now }
{
    one.visible == next.visible && parameters_follow(one.parameter, next.parameter)
}

/// How many of the annotations stand in the first table (JVM Specification 4.7.16 to 4.7.19):
/// annotations that stand one behind the other and can stand in one table do.
pub(crate) fn first_table_len(notes: &[Note]) -> usize
    requires { 0 < length notes.now }
    ensures some { 0 < result }
    ensures within { result ≤ length notes.now }
    ensures first { tables_of notes.now ≡ take result notes.now ∷ tables_of (drop result notes.now) }
{
    let mut last = 0;
    while last + 1 < notes.len() && follows(&notes[last], &notes[last + 1]) {
        last += 1;
    }
    last + 1
}
