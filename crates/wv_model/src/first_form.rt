//! What the definitions of the first form say of small inputs. Nothing runs this.

ghost use Rattle.std.specs.Prelude.{◌≡◌, IsFalse, IsTrue, codes};
ghost use Rattle.wv_model.specs.FirstFormExamples.{call_of_game, call_of_mixin, print_seven};
ghost use Rattle.wv_model.specs.FolderRead.{is_read};
ghost use Rattle.wv_model.specs.MemberTable.{read_in_target};
ghost use Rattle.wv_model.specs.PlainTyping.{HasTyping};

/// The definitions on small inputs: code that has a typing where its stack is declared large enough, a call as it is
/// read in the target, and paths that are read or not.
pub fn first_form_examples()
    ensures typed { HasTyping 8 print_seven }
    ensures typed_within { HasTyping 2 print_seven }
    ensures untyped { HasTyping 1 print_seven → ⊥ }
    ensures own_call { read_in_target (codes "alpha/mixin/MainMixin") (codes "app/Main") call_of_mixin ≡ call_of_game }
    ensures class_read { IsTrue (is_read (codes "game/app/Main.class")) }
    ensures json_read { IsTrue (is_read (codes "mods/alpha/fabric.mod.json")) }
    ensures module_unread { IsFalse (is_read (codes "game/module-info.class")) }
    ensures signature_unread { IsFalse (is_read (codes "mods/alpha/META-INF/a.json")) }
    ensures loose_unread { IsFalse (is_read (codes "mods/a.json")) }
    ensures jar_unread { IsFalse (is_read (codes "mods/alpha/lib.jar")) }
{}
