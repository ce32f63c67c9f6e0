//! Which members were there before.
ghost use Rattle.std.specs.Prelude.{◌≡◌, ◌↔◌, ◌∷◌, ◌++◌, [], ℕ, List, IsTrue, IfOk, OnOk, IfSome, IfNone};
ghost use Rattle.wv_class.specs.declared.raw_class.RawMember.{RawMember};
ghost use Rattle.wv_class.specs.Breaks.{IsNamed, IsAgain};
ghost use Rattle.wv_class.specs.Checking.{IsTextNumber, HasKey, HasKeys};

use crate::raw_class::RawMember;
use std::collections::BTreeSet;
use wv_base::{Const, Memory};
use wv_pool::Pool;

/// The least number of the text that the number names.
fn text_number(pool: &Pool, number: u16) -> Result<Option<u16>, Memory>
    ensures { IfOk result (IsTextNumber pool.now number) }
{
    match pool.text(number) {
        Some(text) => Ok(pool.number_of(&Const::Utf8(text.copy()?))),
        None => Ok(None),
    }
}

/// The least numbers of the member's name and descriptor, if it has both.
fn key_of(pool: &Pool, member: &RawMember) -> Result<Option<(u16, u16)>, Memory>
    ensures found { IfOk result (λ found. IfSome found (HasKey pool.now member.now)) }
    ensures none { IfOk result (λ found. IfNone found ((name descriptor : List ℕ) → IsNamed pool.now member.now name descriptor → ⊥)) }
{
    let Some(name) = text_number(pool, member.name)? else {
        return Ok(None);
    };
    let Some(descriptor) = text_number(pool, member.descriptor)? else {
        return Ok(None);
    };
    Ok(Some((name, descriptor)))
}

/// Whether a member with the same name and descriptor was there before. The member is one of those
/// before from now on.
pub(crate) fn is_again(
    pool: &Pool,
    seen: &mut BTreeSet<(u16, u16)>,
    member: &RawMember,
) -> Result<bool, Memory>
    ensures again { (before : List RawMember) → HasKeys pool.now seen.old before → IfOk result (λ again. IsTrue again ↔ IsAgain pool.now before member.now) }
    ensures keys { (before : List RawMember) → HasKeys pool.now seen.old before → OnOk result (HasKeys pool.now seen.new (before ++ member.now ∷ [])) }
{
    match key_of(pool, member)? {
        Some(key) => Ok(!seen.insert(key)?),
        None => Ok(false),
    }
}
