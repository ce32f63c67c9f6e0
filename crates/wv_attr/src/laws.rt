//! What the bytes of a table determine.
ghost use Rattle.std.specs.Prelude.{◌≡◌, ℕ, Bool, List};
ghost use Rattle.wv_base.specs.declared.class_file.PoolEntry.{PoolEntry};
ghost use Rattle.wv_base.specs.declared.note.Note.{Note};
ghost use Rattle.wv_attr.specs.Meanings.{AreRead, AreParametersRead};
ghost use Rattle.wv_attr.specs.Writing.{as_members, as_parameters, AreMembers, AreParameters};

/// Bytes are one list of annotations of a class or of a member at most, by the numbers of a pool.
pub fn one_list()
    ensures { (pool : List PoolEntry) (visible : Bool) (bytes : List ℕ) (notes others : List Note) → AreRead pool visible bytes notes → AreRead pool visible bytes others → notes ≡ others }
{}

/// Bytes are one list of annotations of a method's parameters at most, by the numbers of a pool.
pub fn one_parameter_list()
    ensures { (pool : List PoolEntry) (visible : Bool) (bytes : List ℕ) (notes others : List Note) → AreParametersRead pool visible bytes notes → AreParametersRead pool visible bytes others → notes ≡ others }
{}

/// Annotations of one table stay what they are in such a table: what `write_notes` and
/// `write_parameter_notes` write of them is read again as the same.
pub fn same_in_their_table()
    ensures members { (visible : Bool) (notes : List Note) → AreMembers visible notes → as_members visible notes ≡ notes }
    ensures parameters { (visible : Bool) (notes : List Note) → AreParameters visible notes → as_parameters visible notes ≡ notes }
{}
