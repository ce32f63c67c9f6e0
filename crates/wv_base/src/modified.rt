//! Modified UTF-8, the spelling of names in class files (JVM Specification 4.4.7).
ghost use Rattle.std.specs.Prelude.{◌≡◌, ◌<◌, ◌≤◌, ◌↔◌, ◌++◌, List, ℕ, IsTrue, IfOk, IfErr, OnOk, Result, Ok, Err};
ghost use Rattle.std.specs.Result.{result_map_both};
ghost use Rattle.wv_base.specs.Modified.{unit_spelling, spelling, IsName, IsFault, Reads};
ghost use Rattle.wv_base.specs.ModifiedReading.{is_next, two_at, third_at, three_at, unit_at, name_in, IfFault, GivesName};

use crate::bytes::Bytes;
use crate::memory::Memory;
use crate::name::Name;
use std::alloc::{AllocError, AllocFailed, Global};
use thiserror::Error;

/// Why bytes aren't read as a name.
#[derive(Debug, Drop, Error)]
pub enum TextFault {
    /// The bytes are no name's. Each front of up to `at` bytes begins a name's bytes. None begins
    /// with one byte more, or the input ends there.
    #[error("no modified UTF-8 from byte {at}")]
    Fault { at: usize },
    #[error("out of memory")]
    Memory,
}

impl From<AllocError> for TextFault {
    ghost use Rattle.wv_base.specs.declared.modified.TextFault.TheVariants as faults;

    ghost from_gives = { λ _ e. e ≡ faults.Memory };

    fn from(_error: AllocError) -> TextFault {
        TextFault::Memory
    }
}

impl<T: Drop> From<AllocFailed<T>> for TextFault {
    ghost use Rattle.wv_base.specs.declared.modified.TextFault.TheVariants as faults;

    ghost from_gives = { λ _ e. e ≡ faults.Memory };

    fn from(_error: AllocFailed<T>) -> TextFault {
        TextFault::Memory
    }
}

impl From<Memory> for TextFault {
    ghost use Rattle.wv_base.specs.declared.modified.TextFault.TheVariants as faults;

    ghost from_gives = { λ _ e. e ≡ faults.Memory };

    fn from(_error: Memory) -> TextFault {
        TextFault::Memory
    }
}

/// Whether the byte may stand behind the first of a unit's bytes.
fn is_next(byte: u8) -> bool
    ensures { result ≡ is_next byte }
{
    0x80 <= byte && byte < 0xC0
}

#[tactic(auto, unfolding(crate::specs::ModifiedReading::two_at))]
fn two_at(first: u8, rest: &[u8]) -> Result<(u16, &[u8]), usize>
    requires low { 0xC0 ≤ first }
    requires high { first < 0xE0 }
    ensures { result_map_both (λ x. (x.0, x.1.now)) (λ at. at) result ≡ two_at first rest.now }
{
    match rest {
        // 0xC0 is the first byte of the unit 0 alone, so that each unit has one spelling.
        [second, rest @ ..] if is_next(*second) && (first > 0xC1 || *second == 0x80) => Ok((
            (first as u16 - 0xC0) * 0x40 + (*second as u16 - 0x80),
            rest,
        )),
        _ => Err(1),
    }
}

#[tactic(auto, unfolding(crate::specs::ModifiedReading::third_at))]
fn third_at(first: u8, second: u8, rest: &[u8]) -> Result<(u16, &[u8]), usize>
    requires low { 0xE0 ≤ first }
    requires high { first < 0xF0 }
    requires next { IsTrue (is_next second) }
    ensures { result_map_both (λ x. (x.0, x.1.now)) (λ at. at) result ≡ third_at first second rest.now }
{
    match rest {
        [third, rest @ ..] if is_next(*third) => {
            let high = (first as u16 - 0xE0) * 0x1000 + (second as u16 - 0x80) * 0x40;
            Ok((high + (*third as u16 - 0x80), rest))
        }
        _ => Err(2),
    }
}

#[tactic(auto, unfolding(crate::specs::ModifiedReading::three_at))]
fn three_at(first: u8, rest: &[u8]) -> Result<(u16, &[u8]), usize>
    requires low { 0xE0 ≤ first }
    requires high { first < 0xF0 }
    ensures { result_map_both (λ x. (x.0, x.1.now)) (λ at. at) result ≡ three_at first rest.now }
{
    match rest {
        // Behind 0xE0 a lower byte would spell a unit below 0x800, which has two bytes.
        [second, rest @ ..] if is_next(*second) && (first > 0xE0 || *second >= 0xA0) => {
            third_at(first, *second, rest)
        }
        _ => Err(1),
    }
}

/// The unit at the front and the bytes after it, or how many bytes precede the fault.
#[tactic(auto, unfolding(crate::specs::ModifiedReading::unit_at))]
fn unit_at(bytes: &[u8]) -> Result<(u16, &[u8]), usize>
    ensures { result_map_both (λ x. (x.0, x.1.now)) (λ at. at) result ≡ unit_at bytes.now }
{
    let [first, rest @ ..] = bytes else {
        return Err(0);
    };
    match *first {
        0x01..=0x7F => Ok((*first as u16, rest)),
        0xC0 | 0xC2..=0xDF => two_at(*first, rest),
        0xE0..=0xEF => three_at(*first, rest),
        _ => Err(0),
    }
}

/// The name that the bytes spell, all of them. The place of a fault counts from the start of
/// `bytes`, and is their length where they end within a unit.
pub fn from_modified(alloc: Global, bytes: &[u8]) -> Result<Name, TextFault>
    ensures found { IfOk result (λ name. IsName name × (bytes.now ≡ spelling name)) }
    // What is spelled so is read, unless memory runs out.
    ensures only { (name : List ℕ) → IsName name → bytes.now ≡ spelling name → GivesName result (Ok name) }
    ensures fault { IfErr result (λ e. IfFault e (IsFault bytes.now)) }
    ensures exact { GivesName result (name_in bytes.now) }
{
    let mut units = Vec::with_capacity(alloc, bytes.len())?;
    let mut rest = bytes;
    while !rest.is_empty() {
        match unit_at(rest) {
            Ok((unit, after)) => {
                units.push(unit)?;
                rest = after;
            }
            Err(place) => {
                let at = bytes.len() - rest.len() + place;
                return Err(TextFault::Fault { at });
            }
        }
    }
    Ok(Name::from_vec(alloc, units)?)
}

fn push_unit(bytes: &mut Vec<u8>, unit: u16) -> Result<(), AllocError>
    ensures { OnOk result (bytes.new.items ≡ bytes.old.items ++ unit_spelling unit) }
{
    let last = (0x80 + unit % 0x40) as u8;
    match unit {
        0x01..=0x7F => bytes.push(unit as u8)?,
        0 | 0x80..=0x7FF => bytes.extend_from_slice(&[(0xC0 + unit / 0x40) as u8, last])?,
        0x800.. => {
            let middle = (0x80 + unit / 0x40 % 0x40) as u8;
            bytes.extend_from_slice(&[(0xE0 + unit / 0x1000) as u8, middle, last])?;
        }
    }
    Ok(())
}

/// The bytes of a name, as a class file has them.
pub fn to_modified(alloc: Global, name: &Name) -> Result<Bytes, Memory>
    ensures { IfOk result (λ bytes. bytes ≡ spelling name.now) }
{
    let mut bytes = Vec::with_capacity(alloc, name.len())?;
    for unit in name.units() {
        push_unit(&mut bytes, *unit)?;
    }
    Ok(Bytes::from_vec(bytes))
}

/// No two names have one spelling, so a name that is written is read again.
pub fn one_spelling()
    ensures { (a b : List ℕ) → IsName a → IsName b → spelling a ≡ spelling b → a ≡ b }
{}

/// Of all bytes, reading gives the name that they spell, and the fault where they spell none.
pub fn one_reading()
    ensures name { (bytes name : List ℕ) → (name_in bytes ≡ Ok name) ↔ (IsName name × (bytes ≡ spelling name)) }
    ensures fault { (bytes : List ℕ) (at : ℕ) → (name_in bytes ≡ Err at) ↔ IsFault bytes at }
{}

#[cfg(test)]
mod tests {
    use super::*;
    use std::process::Abort;
    use std::test::Fail;

    /// That the bytes spell the units, both ways.
    fn spells(rt: &(impl Abort + AllocGlobal), units: &[u16], bytes: &[u8]) -> Result<(), Fail> {
        let name = from_modified(rt.alloc(), bytes)?;
        assert_eq!(rt; name.units(), units);
        let spelled = to_modified(rt.alloc(), &name)?;
        assert_eq!(rt; spelled.as_slice(), bytes);
        Ok(())
    }

    /// The place of the fault in the bytes, if they have one.
    fn fault_in(rt: &impl AllocGlobal, bytes: &[u8]) -> Option<usize> {
        match from_modified(rt.alloc(), bytes) {
            Err(TextFault::Fault { at }) => Some(at),
            _ => None,
        }
    }

    #[test]
    fn names(rt: HostRuntime) -> Result<(), Fail> {
        spells(&rt, &[], &[])?;
        spells(&rt, &[0], &[0xC0, 0x80])?;
        spells(&rt, &[0x01, 0x7F], &[0x01, 0x7F])?;
        spells(&rt, &[0x80, 0x7FF], &[0xC2, 0x80, 0xDF, 0xBF])?;
        spells(&rt, &[0x800, 0xFFFF], &[0xE0, 0xA0, 0x80, 0xEF, 0xBF, 0xBF])?;
        spells(&rt, &[0xD800], &[0xED, 0xA0, 0x80])?;
        // U+1F600 is two units, of three bytes each.
        spells(
            &rt,
            &[0xD83D, 0xDE00],
            &[0xED, 0xA0, 0xBD, 0xED, 0xB8, 0x80],
        )
    }

    #[test]
    fn faults(rt: HostRuntime) {
        assert_eq!(rt; fault_in(&rt, &[0x00]), Some(0));
        assert_eq!(rt; fault_in(&rt, &[0xC1, 0x85]), Some(0));
        assert_eq!(rt; fault_in(&rt, &[0xE4]), Some(1));
        assert_eq!(rt; fault_in(&rt, &[0x61, 0xC0, 0x81]), Some(2));
        assert_eq!(rt; fault_in(&rt, &[0xE0, 0x80, 0x80]), Some(1));
        assert_eq!(rt; fault_in(&rt, &[0xE4, 0xB8, 0x41]), Some(2));
        assert_eq!(rt; fault_in(&rt, &[0x61, 0x80]), Some(1));
        assert_eq!(rt; fault_in(&rt, &[0xF0, 0x9F, 0x98, 0x80]), Some(0));
    }
}
