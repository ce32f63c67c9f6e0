//! The first rules on a folder, in their order.
ghost use Rattle.std.specs.Prelude.{OnOk, IfErr};
ghost use Rattle.wv_mod.specs.FirstBroken.{IsKept};
ghost use Rattle.wv_front.specs.Opening.{HasJar, LacksGame, HasBadGame, IsOpened, IsFirstUnopened, IsBeforeCut, IsFirstCut, IsBrokenFault};

use crate::fault::WeaveFault;
use crate::folder_rules::{GAME_JSON, listed_game, right_game, within_limits};
use crate::limit::Cut;
use std::alloc::Global;
use wv_base::Folder;

/// Whether a folder may be woven: what it lists, its game, and how much there is. Each file counts as
/// read, with the bytes that it has in the folder.
///
/// A fault is the first of the rules 1, 2, 3 and 5 that the folder breaks, at its first path: a listed
/// path ends in `.jar`; `game/game.json` isn't listed; it isn't as it has to be; over 20,000 files are
/// listed, or over 67,108,864 bytes are read.
pub fn opening(alloc: Global, folder: &Folder) -> Result<(), WeaveFault>
    ensures opened { OnOk result (IsOpened folder.now) }
    ensures broken { IfErr result (IsBrokenFault (IsFirstUnopened folder.now)) }
{
    let game = listed_game(alloc, folder)?;
    right_game(alloc, game)?;
    within_limits(alloc, folder)
}

/// The refusal of a folder whose reading ended early. It lists all its files, and has the bytes of
/// those before the path that passes a limit.
///
/// It is for the first of the rules 1, 2, 3 and 5 that the folder breaks. Rule 3 isn't broken by a file
/// that isn't read, and rule 5 is broken at the path that passes the limit.
pub fn opening_cut(alloc: Global, folder: &Folder, cut: &Cut) -> WeaveFault
    ensures broken { IsBrokenFault (IsFirstCut folder.now cut.now) result }
{
    match rules_before(alloc, folder, cut) {
        Ok(()) => match cut.limit.too_much(alloc, cut.path.as_str()) {
            Ok(broken) => WeaveFault::Broken(broken),
            Err(_) => WeaveFault::Memory,
        },
        Err(fault) => fault,
    }
}

/// Rules 1 to 3, on a folder whose reading ended early.
fn rules_before(alloc: Global, folder: &Folder, cut: &Cut) -> Result<(), WeaveFault>
    ensures jars { OnOk result (IsKept (HasJar folder.now)) }
    ensures listed { OnOk result (IsKept (LacksGame folder.now)) }
    ensures game { OnOk result (IsKept (HasBadGame (IsBeforeCut cut.now) folder.now)) }
    ensures broken { IfErr result (IsBrokenFault (IsFirstCut folder.now cut.now)) }
{
    let game = listed_game(alloc, folder)?;
    if GAME_JSON < cut.path.as_str() {
        right_game(alloc, game)?;
    }
    Ok(())
}
