//! The instructions to which distances in bytes lead.
ghost use Rattle.std.specs.Prelude.{◌≡◌, ℕ, Some, IfOk, IfSome, IfNone, slice_get, ℤ};
ghost use Rattle.std.specs.List.Sorted.{IsStrictlyIncreasing};
ghost use Rattle.wv_insn.specs.declared.raw.RawCase.{RawCase};
ghost use Rattle.wv_code.specs.Body.{IsAt};
ghost use Rattle.wv_code.specs.Breaks.{Starts, Lands};
ghost use Rattle.wv_code.specs.Meaning.{Leads, AllLead, AllCasesLead};

use crate::index::index_at;
use std::alloc::Global;
use wv_base::{Case, Cases, Items, Memory, Targets};
use wv_insn::RawCase;

/// The index of the instruction that starts at the offset.
#[tactic(auto, using(crate::proofs::Indices::index_small))]
pub(crate) fn start_at(offsets: &[u32], at: u32) -> Option<u32>
    requires { IsStrictlyIncreasing offsets.now }
    ensures found { IfSome result (λ index. IsAt offsets.now index at) }
    ensures none { IfNone result (Starts offsets.now at → ⊥) }
{
    match index_at(offsets, at) {
        Some(index) => Some(index as u32),
        None => None,
    }
}

/// The same where some instruction starts there.
pub(crate) fn start_of(offsets: &[u32], at: u32) -> u32
    requires ascend { IsStrictlyIncreasing offsets.now }
    requires starts { (Starts offsets.now at → ⊥) → ⊥ }
    ensures { IsAt offsets.now result at }
{
    match start_at(offsets, at) {
        Some(index) => index,
        None => unreachable!(),
    }
}

/// The index of the instruction to which the distance from the offset leads.
fn target(offsets: &[u32], at: u32, distance: i32) -> Option<u32>
    requires { IsStrictlyIncreasing offsets.now }
    ensures found { IfSome result (Leads offsets.now at distance) }
    ensures none { IfNone result (Lands offsets.now at distance → ⊥) }
{
    match at.checked_add_signed(distance) {
        Some(to) => start_at(offsets, to),
        None => None,
    }
}

/// The same where some instruction starts there.
pub(crate) fn landing(offsets: &[u32], at: u32, distance: i32) -> u32
    requires ascend { IsStrictlyIncreasing offsets.now }
    requires lands { (Lands offsets.now at distance → ⊥) → ⊥ }
    ensures { Leads offsets.now at distance result }
{
    match target(offsets, at, distance) {
        Some(index) => index,
        None => unreachable!(),
    }
}

pub(crate) fn landings(
    alloc: Global,
    offsets: &[u32],
    at: u32,
    distances: &[i32],
) -> Result<Targets, Memory>
    requires ascend { IsStrictlyIncreasing offsets.now }
    requires land { (k : ℕ) (distance : ℤ) → slice_get distances.now k ≡ Some distance → (Lands offsets.now at distance → ⊥) → ⊥ }
    ensures { IfOk result (AllLead offsets.now at distances.now) }
{
    let mut found = Items::new(alloc);
    for distance in distances {
        found.push(landing(offsets, at, *distance))?;
    }
    Ok(found)
}

pub(crate) fn case_landings(
    alloc: Global,
    offsets: &[u32],
    at: u32,
    raws: &[RawCase],
) -> Result<Cases, Memory>
    requires ascend { IsStrictlyIncreasing offsets.now }
    requires land { (k : ℕ) (raw : RawCase) → slice_get raws.now k ≡ Some raw → (Lands offsets.now at raw.offset → ⊥) → ⊥ }
    ensures { IfOk result (AllCasesLead offsets.now at raws.now) }
{
    let mut found = Items::new(alloc);
    for raw in raws {
        found.push(Case {
            key: raw.key,
            to: landing(offsets, at, raw.offset),
        })?;
    }
    Ok(found)
}
