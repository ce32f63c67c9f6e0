//! What the mixins do at the instructions of a method.

use crate::name::Name;
use sqlite_items::Items;

/// Where in a method an action stands. The numbers are indices of instructions.
#[derive(Clone, Copy, Debug, PartialEq, Eq)]
pub enum Spot {
    /// Passed once, when the method is entered.
    Entry,
    /// Passed whenever control comes to the instruction.
    Before(u32),
    /// Passed when the instruction ends normally.
    After(u32),
    /// In place of the instruction.
    Instead(u32),
}

/// What an action does: it runs an initializer part, or calls the handler of an `@Inject`,
/// `@ModifyArg`, `@ModifyVariable`, `@ModifyConstant` or `@Redirect`.
#[derive(Clone, Copy, Debug, PartialEq, Eq)]
pub enum ActionKind {
    Init,
    Call,
    Arg,
    Local,
    Const,
    Instead,
}

/// One call of a handler at a spot. `mixin` is the mixin's number in the order of mixins, `member`
/// the handler's place among its methods, and `place` the place in the list of points that led
/// here. `parameters` and `operands` are field descriptors, of the handler's parameters and of what
/// the matched instruction takes, and `result` is the handler's, or `V`.
#[derive(Debug, Drop)]
pub struct Action {
    pub kind: ActionKind,
    pub mixin: u32,
    pub member: u32,
    pub place: u32,
    pub owner: Name,
    pub name: Name,
    pub descriptor: Name,
    pub is_static: bool,
    pub parameters: Items<Name>,
    pub operands: Items<Name>,
    pub result: Name,
    /// The id of the callback object that an `@Inject` makes.
    pub callback: Option<Name>,
    pub cancellable: bool,
    /// The local variable that a `@ModifyVariable` replaces.
    pub slot: Option<u16>,
    /// The place of the argument that a `@ModifyArg` replaces.
    pub argument: Option<u8>,
}

/// The actions at one spot of one method, in the order in which they run. `method` is the method's
/// place in the member table.
#[derive(Debug, Drop)]
pub struct Hooks {
    pub method: u32,
    pub spot: Spot,
    pub actions: Items<Action>,
}

/// All actions on a class.
pub type HookList = Items<Hooks>;
