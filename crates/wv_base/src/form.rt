//! How the operands of an instruction are spelled.

/// The form of the operands that follow an opcode (JVM Specification 6.5). Numbers are written with
/// the high byte first.
#[derive(Clone, Copy, Debug, PartialEq, Eq)]
pub enum Form {
    /// No operands.
    Plain,
    /// bipush: a signed byte.
    Byte,
    /// sipush: a signed number of two bytes.
    Short,
    /// ldc: a pool number of one byte.
    Constant,
    /// ldc_w and ldc2_w: a pool number of two bytes.
    WideConstant,
    /// The load or the store of a local variable: its number, of one byte, or of two behind `wide`.
    Local,
    /// iinc: a local variable and a signed number, of one byte each, or of two behind `wide`.
    Increment,
    /// A jump: a signed offset of two bytes.
    Branch,
    /// goto_w: a signed offset of four bytes.
    WideBranch,
    /// tableswitch.
    Table,
    /// lookupswitch.
    Lookup,
    /// A field instruction, or a call by a pool number alone.
    Reference,
    /// invokeinterface: a pool number, a count and a zero byte.
    Interface,
    /// invokedynamic: a pool number and two zero bytes.
    Dynamic,
    /// new, anewarray, checkcast and instanceof: a pool number.
    Class,
    /// newarray: a type in one byte.
    Array,
    /// multianewarray: a pool number and the dimensions in one byte.
    MultiArray,
    /// wide: the opcode of a `Local` or an `Increment`, with operands of two bytes.
    Wide,
}
