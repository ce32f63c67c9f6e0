//! What the written classes of the form mean: they do what the unwoven classes do under their mixins. Nothing runs this.

ghost use Rattle.std.specs.Prelude.{◌≡◌, ℕ, List, [], ◌∷◌, Some, None, codes, pos};
ghost use Rattle.std.specs.List.{AllByRecursion};
ghost use Rattle.wv_base.specs.declared.class_file.ClassFile.{ClassFile};
ghost use Rattle.wv_base.specs.declared.class_file.Member.{Member};
ghost use Rattle.wv_model.specs.Corresponds.{steps_for_one};
ghost use Rattle.wv_model.specs.Entries.{Entry, IsFormEntry, Program};
ghost use Rattle.wv_model.specs.FirstMeaning.{AreWritten, FormRel, MeansHooked};
ghost use Rattle.wv_model.specs.FormDomain.{Answer, AnInt, AVoid, AThrow, BadAnswer, Byte, Deep, HeapFull, NoAnswer, Outside, Returned, ShownReference, ShownVoid, Threw, Unlinked, form};
ghost use Rattle.wv_model.specs.HookMachine.{Point, hook_control, hook_machine, hook_start, run_hooked};
ghost use Rattle.wv_model.specs.Machine.{Budget, Ended, after};
ghost use Rattle.wv_model.specs.MeaningExamples.{asking_method, calling_game, calling_method, entry_f, entry_main, main_calling, main_printing, mixin_on, mixin_with, open_f, open_game, open_main, other_class, printing_method, shown_error, throw_error, written_with};
ghost use Rattle.wv_model.specs.MemberTable.{Applied};
ghost use Rattle.wv_model.specs.PlainCode.{Role};
ghost use Rattle.wv_model.specs.PlainMethod.{HasPlainMethods, IsAnyMethod, IsPlainMethod};
ghost use Rattle.wv_model.specs.PlainMachine.{plain_control, plain_machine, plain_start, run_plain};
ghost use Rattle.wv_model.specs.FirstFormExamples.{small_class};
ghost use Rattle.wv_model.specs.Simulates.{Follows, SimulatesWithin};
ghost use Rattle.wv_model.specs.Step.{State};
ghost use Rattle.wv_model.specs.Typing.{IsStuck};

/// The written classes do what the unwoven ones do under the mixins, for every entry, bound on cells, list of answers
/// and budget, whatever classes have the names and the members of the tables. In this form the two even take their steps
/// together, so that each budget has the same run of both.
pub fn overwrites_correspond()
    ensures table { (classes : List ClassFile) (mixins : List Applied) (written : List ClassFile) → AreWritten classes mixins written → MeansHooked classes mixins written }
    ensures together { (classes : List ClassFile) (mixins : List Applied) (written : List ClassFile) → AreWritten classes mixins written → (entry : Entry) (most : ℕ) (answers : List Answer) (n : ℕ) → run_plain written entry most answers n ≡ run_hooked classes mixins entry most answers n }
{}

/// The step law of the form. The start states of each entry are related. Related states that go on share the same heap,
/// begun classes, answers and references shown; each step of the written classes lowers the number, which is below 800,
/// or stands for a step of the hook machine; and the written classes take 1 to 800 steps to a state related to the hook
/// machine's next.
pub fn overwrites_step()
    ensures starts { (entry : Entry) (most : ℕ) (answers : List Answer) → FormRel 0 (plain_start entry most answers) (hook_start entry most answers) }
    ensures shared { (n : ℕ) (s : State form ℕ) (t : State form Point) → FormRel n s t → s.ending ≡ None → s.shared ≡ t.shared }
    ensures steps { (classes : List ClassFile) (mixins : List Applied) (written : List ClassFile) → AreWritten classes mixins written → SimulatesWithin steps_for_one (plain_machine written) (hook_machine classes mixins) FormRel }
    ensures follows { (classes : List ClassFile) (mixins : List Applied) (written : List ClassFile) → AreWritten classes mixins written → (n : ℕ) (s : State form ℕ) (t : State form Point) → FormRel n s t → t.ending ≡ None → Follows steps_for_one (plain_machine written) (hook_machine classes mixins) FormRel s t }
{}

/// There is a row for every step, from any entry of the form: no step of a run of plain classes is stuck, and no step of
/// a run of the hook machine whose classes can be written. A method of either role is a plain method of the form.
pub fn form_never_stuck()
    ensures plain { (classes : List ClassFile) → AllByRecursion HasPlainMethods classes → (entry : Entry) → IsFormEntry entry → (most : ℕ) (answers : List Answer) (n : ℕ) → IsStuck (plain_control classes) (after (plain_machine classes) n (plain_start entry most answers)) → ⊥ }
    ensures hooked { (classes : List ClassFile) (mixins : List Applied) (written : List ClassFile) → AreWritten classes mixins written → AllByRecursion HasPlainMethods written → (entry : Entry) → IsFormEntry entry → (most : ℕ) (answers : List Answer) (n : ℕ) → IsStuck (hook_control classes mixins) (after (hook_machine classes mixins) n (hook_start entry most answers)) → ⊥ }
    ensures narrower { (role : Role) (own : List ℕ) (method : Member) → IsPlainMethod role own method → IsAnyMethod method }
{}

/// What both machines do on small classes: main calls the method that prints 7, in nine steps; a call of that method
/// takes seven; fewer steps are too few; a method that calls itself ends deep at the step that would push the 1,025th
/// frame; a class without main is unlinked.
pub fn meaning_examples()
    ensures prints { run_plain (written_with printing_method ∷ []) entry_main 1 [] 9 ≡ record { trace = Byte 0x37 ∷ Byte 0x0A ∷ []; finish = Ended Returned } }
    ensures hooked_prints { run_hooked (calling_game ∷ []) (mixin_with printing_method ∷ []) entry_main 1 [] 9 ≡ record { trace = Byte 0x37 ∷ Byte 0x0A ∷ []; finish = Ended Returned } }
    ensures no_step { run_plain (written_with printing_method ∷ []) entry_main 1 [] 0 ≡ record { trace = []; finish = Budget } }
    ensures hooked_no_step { run_hooked (calling_game ∷ []) (mixin_with printing_method ∷ []) entry_main 1 [] 0 ≡ record { trace = []; finish = Budget } }
    ensures one_step { run_plain (written_with printing_method ∷ []) entry_main 1 [] 1 ≡ record { trace = []; finish = Budget } }
    ensures hooked_one_step { run_hooked (calling_game ∷ []) (mixin_with printing_method ∷ []) entry_main 1 [] 1 ≡ record { trace = []; finish = Budget } }
    ensures cut { run_plain (written_with printing_method ∷ []) entry_main 1 [] 8 ≡ record { trace = Byte 0x37 ∷ Byte 0x0A ∷ []; finish = Budget } }
    ensures hooked_cut { run_hooked (calling_game ∷ []) (mixin_with printing_method ∷ []) entry_main 1 [] 8 ≡ record { trace = Byte 0x37 ∷ Byte 0x0A ∷ []; finish = Budget } }
    ensures called { run_plain (written_with printing_method ∷ []) entry_f 1 [] 7 ≡ record { trace = Byte 0x37 ∷ Byte 0x0A ∷ []; finish = Ended Returned } }
    ensures hooked_called { run_hooked (calling_game ∷ []) (mixin_with printing_method ∷ []) entry_f 1 [] 7 ≡ record { trace = Byte 0x37 ∷ Byte 0x0A ∷ []; finish = Ended Returned } }
    ensures deep { run_plain (written_with calling_method ∷ []) entry_main 1 [] 1025 ≡ record { trace = []; finish = Ended Deep } }
    ensures hooked_deep { run_hooked (calling_game ∷ []) (mixin_with calling_method ∷ []) entry_main 1 [] 1025 ≡ record { trace = []; finish = Ended Deep } }
    ensures nearly_deep { run_plain (written_with calling_method ∷ []) entry_main 1 [] 1024 ≡ record { trace = []; finish = Budget } }
    ensures no_main { run_plain (small_class ∷ []) entry_main 1 [] 1 ≡ record { trace = []; finish = Ended (Unlinked (codes "app/Main")) } }
    ensures hooked_no_main { run_hooked (small_class ∷ []) (mixin_with printing_method ∷ []) entry_main 1 [] 1 ≡ record { trace = []; finish = Ended (Unlinked (codes "app/Main")) } }
{}

/// Two classes: a call of the other class takes one step that marks it as begun; a mixin of the other class changes what
/// is called there; the main class may be any; no method of a platform's interface is found by a class's reference, and
/// none that is built in and needs an object.
pub fn two_classes_examples()
    ensures begins { (after (plain_machine (main_calling (codes "app/Other") ∷ other_class ∷ [])) 3 (plain_start entry_main 1 [])).shared.begun ≡ 1 ∷ 0 ∷ [] }
    ensures returns { run_plain (main_calling (codes "app/Other") ∷ other_class ∷ []) entry_main 1 [] 7 ≡ record { trace = []; finish = Ended Returned } }
    ensures not_sooner { run_plain (main_calling (codes "app/Other") ∷ other_class ∷ []) entry_main 1 [] 6 ≡ record { trace = []; finish = Budget } }
    ensures hooked_other { run_hooked (main_calling (codes "app/Other") ∷ other_class ∷ []) (mixin_on (codes "app/Other") asking_method ∷ []) entry_main 1 (AVoid ∷ []) 8 ≡ record { trace = Outside open_f [] (Some ShownVoid) ∷ []; finish = Ended Returned } }
    ensures other_main { run_plain (small_class ∷ other_class ∷ []) (Program (codes "app/Other")) 1 [] 1 ≡ record { trace = []; finish = Ended (Unlinked (codes "app/Other")) } }
    ensures no_static_method { run_plain (main_printing ∷ []) entry_main 1 (AVoid ∷ []) 3 ≡ record { trace = []; finish = Ended (Unlinked (codes "java/io/PrintStream")) } }
    ensures no_interface_method { run_plain (main_calling (codes "java/lang/Runnable") ∷ []) entry_main 1 [] 3 ≡ record { trace = []; finish = Ended (Unlinked (codes "java/lang/Runnable")) } }
{}

/// Outside steps on both machines: a call of what no class of the list has takes the next answer and is shown with it; a
/// throw leaves one frame in each step, and takes two cells; no answer, and one that doesn't fit, end the run; the main
/// method of a class that nobody defines is one such step, with the array as its operand, which is numbered before the
/// answer.
pub fn outside_examples()
    ensures goes_on { run_plain open_game entry_main 1 (AVoid ∷ []) 5 ≡ record { trace = Outside open_f [] (Some ShownVoid) ∷ []; finish = Ended Returned } }
    ensures hooked_goes_on { run_hooked open_game [] entry_main 1 (AVoid ∷ []) 5 ≡ record { trace = Outside open_f [] (Some ShownVoid) ∷ []; finish = Ended Returned } }
    ensures no_answer { run_plain open_game entry_main 1 [] 3 ≡ record { trace = Outside open_f [] None ∷ []; finish = Ended NoAnswer } }
    ensures bad_answer { run_plain open_game entry_main 1 (AnInt (pos 7) ∷ []) 3 ≡ record { trace = Outside open_f [] None ∷ []; finish = Ended BadAnswer } }
    ensures not_thrown { run_plain open_game entry_main 3 (AThrow (codes "app/Main") ∷ []) 3 ≡ record { trace = Outside open_f [] None ∷ []; finish = Ended BadAnswer } }
    ensures first_frame { run_plain open_game entry_main 3 (throw_error ∷ []) 3 ≡ record { trace = Outside open_f [] (shown_error 0) ∷ []; finish = Budget } }
    ensures second_frame { run_plain open_game entry_main 3 (throw_error ∷ []) 4 ≡ record { trace = Outside open_f [] (shown_error 0) ∷ []; finish = Ended (Threw (codes "java/lang/Error")) } }
    ensures hooked_throw { run_hooked open_game [] entry_main 3 (throw_error ∷ []) 4 ≡ record { trace = Outside open_f [] (shown_error 0) ∷ []; finish = Ended (Threw (codes "java/lang/Error")) } }
    ensures heap_full { run_plain open_game entry_main 2 (throw_error ∷ []) 3 ≡ record { trace = Outside open_f [] None ∷ []; finish = Ended HeapFull } }
    ensures cells_taken { (after (plain_machine open_game) 3 (plain_start entry_main 3 (throw_error ∷ []))).shared.used ≡ 3 }
    ensures main_outside { run_plain [] (Program (codes "open/Main")) 1 (AVoid ∷ []) 2 ≡ record { trace = Outside open_main (ShownReference 0 ∷ []) (Some ShownVoid) ∷ []; finish = Ended Returned } }
    ensures thrown_main { run_plain [] (Program (codes "open/Main")) 3 (throw_error ∷ []) 1 ≡ record { trace = Outside open_main (ShownReference 0 ∷ []) (shown_error 1) ∷ []; finish = Ended (Threw (codes "java/lang/Error")) } }
{}
