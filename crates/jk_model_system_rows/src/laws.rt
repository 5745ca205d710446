//! What the definitions in `specs/` say by themselves. The functions have no bodies: each stands for its clauses.

ghost use Rattle.std.specs.Prelude.{◌≡◌, ℕ, ◌<◌, List, [], ◌∷◌, map, Some, None, codes};
ghost use Rattle.jk_model.specs.declared.identifiers.ClassId.{ClassId};
ghost use Rattle.jk_model.specs.declared.identifiers.MemberId.{MemberId};
ghost use Rattle.jk_model.specs.declared.steps.Raise.{Raise};
ghost use Rattle.jk_model.specs.declared.values.Value.{Value};
ghost use Rattle.jk_model.specs.SystemTable.{system_classes};
ghost use Rattle.jk_model_classes.specs.Classes.{OBJECT};
ghost use Rattle.jk_model_typing.specs.FrameTypes.{THROWABLE};
ghost use Rattle.jk_model_domains.specs.declared.states.ClassState.TheVariants as State;
ghost use Rattle.jk_model_domains.specs.Objects.{TASK};
ghost use Rattle.jk_model_domains.specs.OwnStates.{OwnState, part_of, state_of};
ghost use Rattle.jk_model_heaps.specs.SystemClasses.{STRING_BUFFER, STRING_BUILDER, THREAD_DEATH};
ghost use Rattle.jk_model_heaps.specs.Workings.{Inside, Setting};
ghost use Rattle.jk_model_system_rows.specs.declared.meanings.Shown.TheVariants as As;
ghost use Rattle.jk_model_system_rows.specs.declared.meanings.SystemMeaning.{SystemMeaning};
ghost use Rattle.jk_model_system_rows.specs.declared.meanings.SystemMeaning.TheVariants as Means;
ghost use Rattle.jk_model_system_rows.specs.Answers.{Answered, Fails};
ghost use Rattle.jk_model_system_rows.specs.Meanings.{field_names, meaning_numbered, meaning_of, meant_signatures, number_of, system_meanings, table_signatures};
ghost use Rattle.jk_model_system_rows.specs.SystemRows.{SystemRow};

/// The lists of meanings are those of the system table: class by class and method by method they have its names and descriptors.
pub fn meanings_stand_as_in_the_table()
    ensures { map meant_signatures system_meanings ≡ map table_signatures system_classes }
{}

/// Some meanings by the places of their methods: the first of java/lang/Object, the last of jk/Task, one of a buffer that takes a
/// number, and what java/lang/ThreadDeath lacks beside other throwables.
pub fn meanings_by_place()
    ensures first { meaning_of (record { class = OBJECT; index = 0 }) ≡ Some Means.Initialises }
    ensures last { meaning_of (record { class = TASK; index = 3 }) ≡ Some Means.StopsTask }
    ensures of_long { meaning_of (record { class = STRING_BUILDER; index = 6 }) ≡ Some (Means.Appends As.Long) }
    ensures message { meaning_of (record { class = THROWABLE; index = 2 }) ≡ Some Means.GetsMessage }
    ensures no_message { meaning_of (record { class = THREAD_DEATH; index = 1 }) ≡ None }
    ensures no_system_class { meaning_of (record { class = record { 0 = 45 }; index = 0 }) ≡ None }
{}

/// The number of a method, by which the table counts the methods of all classes in order from 0, tells what it means as its class and its
/// place in it do. The numbers are those from 0 to 110, and each is that of one method. So a member stands for its number.
pub fn meanings_by_number()
    ensures meaning { (m : MemberId) (meaning : SystemMeaning) → meaning_of m ≡ Some meaning → meaning_numbered (number_of m) ≡ Some meaning }
    ensures one { (m n : MemberId) (a b : SystemMeaning) → meaning_of m ≡ Some a → meaning_of n ≡ Some b → number_of m ≡ number_of n → m ≡ n }
    ensures all { (number : ℕ) → number < 111
        → (m : MemberId) × (meaning : SystemMeaning) × (meaning_of m ≡ Some meaning) × (number_of m ≡ number) }
{}

/// What arraycopy leaves, and its answer, are determined: no two of its refusals hold at once, and nothing is copied beside one.
pub fn copies_of_arrays_are_determined()
    ensures { (x : Setting) (given : List Value) (old : Inside) (done other : Answered) → SystemRow x Means.CopiesArray given old done
        → SystemRow x Means.CopiesArray given old other → done ≡ other }
{}

/// Whether a method fails, and by what, is determined by its receiver, its arguments and the heap, whatever names new objects have: no case of
/// its row in which it fails holds beside another.
pub fn failures_of_methods_are_determined()
    ensures { (x : Setting) (meaning : SystemMeaning) (given : List Value) (old : Inside) (done other : Answered) (raise : Raise)
        → SystemRow x meaning given old done → SystemRow x meaning given old other → done.answer ≡ Fails raise → other.answer ≡ Fails raise }
{}

/// Buffers and throwables begin with their hidden text: the table gives them that one field.
pub fn hidden_texts_come_first()
    ensures string_buffer { field_names STRING_BUFFER ≡ Some (codes ".text" ∷ []) }
    ensures string_builder { field_names STRING_BUILDER ≡ Some (codes ".text" ∷ []) }
    ensures throwable { field_names THROWABLE ≡ Some (codes ".message" ∷ []) }
{}

/// A class for which a domain keeps no state, as for each system class, is initialised.
pub fn system_classes_are_initialised()
    ensures { (own : OwnState) (c : ClassId) → part_of own c ≡ None → state_of own c ≡ State.Done }
{}
