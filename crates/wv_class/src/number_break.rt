//! The first number of a class that names no class.
ghost use Rattle.std.specs.Prelude.{◌↔◌, ◌+◌, ◌*◌, ◌^◌, ◌<◌, length, IsTrue};
ghost use Rattle.wv_code.specs.Breaks.{NamesClass};
ghost use Rattle.wv_code.specs.Least.{IsLeastOf};
ghost use Rattle.wv_class.specs.Breaks.{NamesPlainClass, InNumbers};

use crate::least::{lesser, unless};
use wv_base::is_class_name;
use wv_pool::Pool;

/// Whether the number names a class or an array.
fn names_class(pool: &Pool, number: u16) -> bool
    ensures { IsTrue result ↔ NamesClass pool.now number }
{
    match pool.class_name(number) {
        Some(_) => true,
        None => false,
    }
}

/// Whether the number names a class that is no array.
pub(crate) fn names_plain_class(pool: &Pool, number: u16) -> bool
    ensures { IsTrue result ↔ NamesPlainClass pool.now number }
{
    match pool.class_name(number) {
        Some(name) => is_class_name(name),
        None => false,
    }
}

/// The first of the numbers of interfaces that names no class, or an array, where the first of all
/// has place `base` (JVM Specification 4.1).
pub(crate) fn interfaces_break(pool: &Pool, numbers: &[u16], base: usize) -> Option<usize>
    requires room { base + 2 * length numbers.now < 2 ^ 64 }
    ensures { IsLeastOf (InNumbers base numbers.now (NamesPlainClass pool.now)) result }
{
    let mut found = None;
    for (index, number) in numbers.iter().enumerate() {
        let one = unless(names_plain_class(pool, *number), base + 2 * index);
        found = lesser(found, one);
    }
    found
}

/// The first of the numbers of exceptions that names no class, where the first of all has place
/// `base` (JVM Specification 4.7.5).
pub(crate) fn exceptions_break(pool: &Pool, numbers: &[u16], base: usize) -> Option<usize>
    requires room { base + 2 * length numbers.now < 2 ^ 64 }
    ensures { IsLeastOf (InNumbers base numbers.now (NamesClass pool.now)) result }
{
    let mut found = None;
    for (index, number) in numbers.iter().enumerate() {
        let one = unless(names_class(pool, *number), base + 2 * index);
        found = lesser(found, one);
    }
    found
}
