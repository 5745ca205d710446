//! What the definitions in `specs/` say of worked examples. The functions have no bodies: each stands for its clauses, and the examples
//! are in `specs/Examples.antt`.

ghost use Rattle.std.specs.Prelude.{◌≡◌, ℕ, pos, negsuc, [], ◌∷◌, Some, None, codes, true, false};
ghost use Rattle.jk_model.specs.declared.steps.Raise.TheVariants as Raised;
ghost use Rattle.jk_model.specs.declared.values.Value.TheVariants as Held;
ghost use Rattle.jk_model_typing.specs.FrameTypes.{STRING};
ghost use Rattle.jk_model_domains.specs.Objects.{object_named};
ghost use Rattle.jk_model_heaps.specs.SystemClasses.{ARRAY_INDEX_EXCEPTION, ARRAY_STORE_EXCEPTION, NULL_POINTER_EXCEPTION, STRING_INDEX_EXCEPTION};
ghost use Rattle.jk_model_heaps.specs.Workings.{GoesOn, Raises};
ghost use Rattle.jk_model_system_rows.specs.declared.meanings.Shown.TheVariants as As;
ghost use Rattle.jk_model_system_rows.specs.declared.meanings.SystemMeaning.TheVariants as Means;
ghost use Rattle.jk_model_system_rows.specs.Answers.{Answered, fails_by, fails_for_memory, gives_int, gives_nothing, gives_value, with_answer};
ghost use Rattle.jk_model_system_rows.specs.ArrayCopies.{copied};
ghost use Rattle.jk_model_system_rows.specs.Examples.{arrays, bare_and_empty, bare_and_seven, bare_buffer, buffer_after, buffer_before, buffer_with_null, copy_arguments, copy_of, frame_with, ints, joined_texts, new_buffer, no_message, objects_and_texts, setting, texts, unlike_texts, with_ints};
ghost use Rattle.jk_model_system_rows.specs.ParsedNumbers.{parsed};
ghost use Rattle.jk_model_system_rows.specs.SystemCalls.{DoesSystem};
ghost use Rattle.jk_model_system_rows.specs.SystemRows.{SystemRow};
ghost use Rattle.jk_model_system_rows.specs.Texts.{ReadsAs, is_equal_text, substring, unit_at};

/// Texts that write a number: below 0 as well, with needless zeros too, and the least and the greatest one.
pub fn texts_of_numbers()
    ensures below_zero { parsed (codes "-17") ≡ Some (negsuc 16) }
    ensures minus_zero { parsed (codes "-0") ≡ Some (pos 0) }
    ensures zeros_in_front { parsed (codes "00012") ≡ Some (pos 12) }
    ensures least { parsed (codes "-2147483648") ≡ Some (negsuc 2147483647) }
    ensures greatest { parsed (codes "2147483647") ≡ Some (pos 2147483647) }
{}

/// Texts that write none: those with another sign, without a digit, with a number that doesn't fit, or with anything else in them.
pub fn texts_of_no_numbers()
    ensures plus { parsed (codes "+1") ≡ None }
    ensures empty { parsed [] ≡ None }
    ensures sign_alone { parsed (codes "-") ≡ None }
    ensures two_signs { parsed (codes "--1") ≡ None }
    ensures too_great { parsed (codes "2147483648") ≡ None }
    ensures too_small { parsed (codes "-2147483649") ≡ None }
    ensures blank { parsed (codes "1 ") ≡ None }
{}

/// A part of a text, the empty one at its end, and the whole of it; and places that are out of order, below 0 or past the end.
pub fn parts_of_a_text()
    ensures inner { substring (codes "abcd") (pos 1) (pos 3) ≡ Some (codes "bc") }
    ensures empty { substring (codes "abc") (pos 3) (pos 3) ≡ Some [] }
    ensures whole { substring (codes "abc") (pos 0) (pos 3) ≡ Some (codes "abc") }
    ensures out_of_order { substring (codes "abc") (pos 2) (pos 1) ≡ None }
    ensures below { substring (codes "abc") (negsuc 0) (pos 1) ≡ None }
    ensures past { substring (codes "abc") (pos 0) (pos 4) ≡ None }
    ensures last_unit { unit_at (codes "abc") (pos 2) ≡ Some 99 }
    ensures no_unit { unit_at (codes "abc") (pos 3) ≡ None }
{}

/// What values read as. A character is the 16 lowest bits of an int, and a truth value the lowest.
pub fn values_as_texts()
    ensures null { ReadsAs [] As.Text Held.Null (codes "null") }
    ensures below_zero { ReadsAs [] As.Int (Held.Int (negsuc 4)) (codes "-5") }
    ensures long { ReadsAs [] As.Long (Held.Long (pos 2147483648)) (codes "2147483648") }
    ensures character { ReadsAs [] As.Char (Held.Int (pos 65601)) (codes "A") }
    ensures truth { ReadsAs [] As.Truth (Held.Int (pos 2)) (codes "false") }
{}

/// A text equals a text with the same units, and neither null nor a buffer that has such a text.
pub fn equal_texts()
    ensures same { is_equal_text buffer_before.heap (codes "ab") (Held.Obj 2) ≡ true }
    ensures null { is_equal_text buffer_before.heap (codes "ab") Held.Null ≡ false }
    ensures buffer { is_equal_text buffer_before.heap (codes "ab") (Held.Obj 1) ≡ false }
{}

/// A text with another unit is none, nor is one that has more units or fewer, though it begins in the same way; nor is a capability.
pub fn unequal_texts()
    ensures other_unit { is_equal_text unlike_texts.heap (codes "ab") (Held.Obj 1) ≡ false }
    ensures longer { is_equal_text unlike_texts.heap (codes "ab") (Held.Obj 2) ≡ false }
    ensures shorter { is_equal_text unlike_texts.heap (codes "ab") (Held.Obj 3) ≡ false }
    ensures capability { is_equal_text unlike_texts.heap (codes "ab") (Held.Cap (record { 0 = 1 })) ≡ false }
    ensures row { (done : Answered) → SystemRow (setting 64) Means.IsSameText (Held.Obj 1 ∷ Held.Cap (record { 0 = 1 }) ∷ []) unlike_texts done
        → done ≡ with_answer unlike_texts (gives_int (pos 0)) }
{}

/// Of two references java/lang/Object.equals tells whether they are one, so that it is 0 at null, at an equal text that is another object, and
/// at a capability of another number.
pub fn same_references()
    ensures text { (done : Answered) → SystemRow (setting 64) Means.IsSame (Held.Obj 1 ∷ Held.Obj 3 ∷ []) joined_texts done
        → done ≡ with_answer joined_texts (gives_int (pos 0)) }
    ensures null { (done : Answered) → SystemRow (setting 64) Means.IsSame (Held.Obj 1 ∷ Held.Null ∷ []) joined_texts done
        → done ≡ with_answer joined_texts (gives_int (pos 0)) }
    ensures same_capability { (done : Answered)
        → SystemRow (setting 64) Means.IsSame (Held.Cap (record { 0 = 1 }) ∷ Held.Cap (record { 0 = 1 }) ∷ []) joined_texts done
        → done ≡ with_answer joined_texts (gives_int (pos 1)) }
    ensures other_capability { (done : Answered)
        → SystemRow (setting 64) Means.IsSame (Held.Cap (record { 0 = 1 }) ∷ Held.Cap (record { 0 = 2 }) ∷ []) joined_texts done
        → done ≡ with_answer joined_texts (gives_int (pos 0)) }
{}

/// In a frame, the length of a text takes the place of the text, and the next instruction follows. Where the text has no unit at a place,
/// text and place stay on the stack.
pub fn text_methods_in_a_frame()
    ensures gives { DoesSystem (setting 64) (record { class = STRING; index = 0 }) (Held.Obj 2 ∷ [])
        (record { inside = buffer_before; frame = frame_with (Held.Null ∷ Held.Obj 2 ∷ []) })
        (record { inside = buffer_before; frame = frame_with (Held.Null ∷ Held.Int (pos 2) ∷ []) }) (GoesOn 4) }
    ensures fails { DoesSystem (setting 64) (record { class = STRING; index = 1 }) (Held.Obj 2 ∷ Held.Int (pos 2) ∷ [])
        (record { inside = buffer_before; frame = frame_with (Held.Null ∷ Held.Obj 2 ∷ Held.Int (pos 2) ∷ []) })
        (record { inside = buffer_before; frame = frame_with (Held.Null ∷ Held.Obj 2 ∷ Held.Int (pos 2) ∷ []) })
        (Raises (Raised.Fresh STRING_INDEX_EXCEPTION)) }
{}

/// A number is appended to a buffer: it has a new text and answers itself, where that text fits, and else nothing changes.
pub fn number_is_appended()
    ensures fits { SystemRow (setting 18) (Means.Appends As.Int) (Held.Obj 1 ∷ Held.Int (pos 7) ∷ []) buffer_before
        (with_answer buffer_after (gives_value (Held.Obj 1))) }
    ensures lacks { SystemRow (setting 17) (Means.Appends As.Int) (Held.Obj 1 ∷ Held.Int (pos 7) ∷ []) buffer_before
        (with_answer buffer_before fails_for_memory) }
{}

/// Null that is appended adds `null`.
pub fn null_is_appended()
    ensures { SystemRow (setting 21) (Means.Appends As.Text) (Held.Obj 1 ∷ Held.Null ∷ []) buffer_before
        (with_answer buffer_with_null (gives_value (Held.Obj 1))) }
{}

/// A text that an empty one is joined to is a new text all the same, where there is room for it; where there is none, nothing changes. The
/// receiver isn't the answer.
pub fn empty_text_is_joined()
    ensures fits { SystemRow (setting 16) Means.Concat (Held.Obj 1 ∷ Held.Obj 2 ∷ []) texts (with_answer joined_texts (gives_value (Held.Obj 3))) }
    ensures is_new { (done : Answered) → SystemRow (setting 16) Means.Concat (Held.Obj 1 ∷ Held.Obj 2 ∷ []) texts done
        → (a : ℕ) × (done.answer ≡ gives_value (Held.Obj a)) × (object_named texts.heap a ≡ None) }
    ensures lacks { (done : Answered) → SystemRow (setting 15) Means.Concat (Held.Obj 1 ∷ Held.Obj 2 ∷ []) texts done
        → done ≡ with_answer texts fails_for_memory }
    ensures null { (done : Answered) → SystemRow (setting 15) Means.Concat (Held.Obj 1 ∷ Held.Null ∷ []) texts done
        → done ≡ with_answer texts (fails_by NULL_POINTER_EXCEPTION) }
{}

/// A buffer answers its text itself, as often as it is asked, and no new one; after something was appended it is another.
pub fn buffer_answers_its_text()
    ensures again { (done : Answered) → SystemRow (setting 64) Means.BufferText (Held.Obj 1 ∷ []) buffer_before done
        → done ≡ with_answer buffer_before (gives_value (Held.Obj 2)) }
    ensures after { (done : Answered) → SystemRow (setting 64) Means.BufferText (Held.Obj 1 ∷ []) buffer_after done
        → done ≡ with_answer buffer_after (gives_value (Held.Obj 3)) }
{}

/// A buffer isn't begun with null. Begun with a text, it has that text itself, for which no room is asked.
pub fn buffer_is_begun_with_a_text()
    ensures null { (done : Answered) → SystemRow (setting 11) Means.BufferInitialisesWith (Held.Obj 1 ∷ Held.Null ∷ []) new_buffer done
        → done ≡ with_answer new_buffer (fails_by NULL_POINTER_EXCEPTION) }
    ensures text { (done : Answered) → SystemRow (setting 11) Means.BufferInitialisesWith (Held.Obj 1 ∷ Held.Obj 2 ∷ []) new_buffer done
        → done ≡ with_answer buffer_before gives_nothing }
{}

/// A hidden text that is null reads as an empty one. In its place `toString` answers a new empty text, which the buffer doesn't get, or fails
/// where that doesn't fit; a message stays null.
pub fn hidden_texts_that_are_null()
    ensures length { (done : Answered) → SystemRow (setting 5) Means.BufferLength (Held.Obj 1 ∷ []) bare_buffer done
        → done ≡ with_answer bare_buffer (gives_int (pos 0)) }
    ensures appended { SystemRow (setting 10) (Means.Appends As.Int) (Held.Obj 1 ∷ Held.Int (pos 7) ∷ []) bare_buffer
        (with_answer bare_and_seven (gives_value (Held.Obj 1))) }
    ensures text { SystemRow (setting 9) Means.BufferText (Held.Obj 1 ∷ []) bare_buffer (with_answer bare_and_empty (gives_value (Held.Obj 2))) }
    ensures lacks { (done : Answered) → SystemRow (setting 8) Means.BufferText (Held.Obj 1 ∷ []) bare_buffer done
        → done ≡ with_answer bare_buffer fails_for_memory }
    ensures message { (done : Answered) → SystemRow (setting 5) Means.GetsMessage (Held.Obj 1 ∷ []) no_message done
        → done ≡ with_answer no_message (gives_value Held.Null) }
{}

/// Of what arraycopy refuses null comes first, also where the other is no array or a place is negative.
pub fn copies_at_null()
    ensures source { SystemRow (setting 64) Means.CopiesArray (copy_of Held.Null (pos 0) (Held.Obj 6) (pos 0) (pos 1)) arrays
        (with_answer arrays (fails_by NULL_POINTER_EXCEPTION)) }
    ensures target { SystemRow (setting 64) Means.CopiesArray (copy_of (Held.Obj 6) (negsuc 0) Held.Null (pos 0) (pos 1)) arrays
        (with_answer arrays (fails_by NULL_POINTER_EXCEPTION)) }
{}

/// Then come the kinds, before the ranges, and also where nothing is to be copied: a text and a capability are no arrays, truth values and
/// bytes are two kinds, and ints and references aren't copied into one another.
pub fn copies_of_other_kinds()
    ensures text { SystemRow (setting 64) Means.CopiesArray (copy_of (Held.Obj 6) (pos 0) (Held.Obj 1) (pos 0) (pos 0)) arrays
        (with_answer arrays (fails_by ARRAY_STORE_EXCEPTION)) }
    ensures capability { SystemRow (setting 64) Means.CopiesArray (copy_of (Held.Obj 1) (pos 0) (Held.Cap (record { 0 = 0 })) (pos 0) (pos 0)) arrays
        (with_answer arrays (fails_by ARRAY_STORE_EXCEPTION)) }
    ensures truths_and_bytes { SystemRow (setting 64) Means.CopiesArray (copy_of (Held.Obj 2) (pos 0) (Held.Obj 3) (pos 0) (pos 0)) arrays
        (with_answer arrays (fails_by ARRAY_STORE_EXCEPTION)) }
    ensures ints_and_objects { SystemRow (setting 64) Means.CopiesArray (copy_of (Held.Obj 1) (negsuc 0) (Held.Obj 4) (pos 9) (pos 1)) arrays
        (with_answer arrays (fails_by ARRAY_STORE_EXCEPTION)) }
{}

/// Then come the ranges, before any item is looked at, and also where nothing is to be copied. The place after the last item is none only
/// where an item is to be copied.
pub fn copies_out_of_range()
    ensures negative_count { SystemRow (setting 64) Means.CopiesArray (copy_of (Held.Obj 1) (pos 0) (Held.Obj 1) (pos 0) (negsuc 0)) arrays
        (with_answer arrays (fails_by ARRAY_INDEX_EXCEPTION)) }
    ensures past_the_source { SystemRow (setting 64) Means.CopiesArray (copy_of (Held.Obj 1) (pos 5) (Held.Obj 1) (pos 0) (pos 0)) arrays
        (with_answer arrays (fails_by ARRAY_INDEX_EXCEPTION)) }
    ensures past_the_target { SystemRow (setting 64) Means.CopiesArray (copy_of (Held.Obj 1) (pos 0) (Held.Obj 1) (pos 2) (pos 3)) arrays
        (with_answer arrays (fails_by ARRAY_INDEX_EXCEPTION)) }
    ensures before_items { SystemRow (setting 64) Means.CopiesArray (copy_of (Held.Obj 4) (pos 0) (Held.Obj 5) (pos 1) (pos 2)) arrays
        (with_answer arrays (fails_by ARRAY_INDEX_EXCEPTION)) }
    ensures at_the_end { SystemRow (setting 64) Means.CopiesArray (copy_of (Held.Obj 1) (pos 4) (Held.Obj 1) (pos 4) (pos 0)) arrays
        (with_answer arrays gives_nothing) }
{}

/// An array is copied into itself, one place further, as if through a second array.
pub fn array_is_copied_into_itself()
    ensures items { copied (ints (1 ∷ 2 ∷ 3 ∷ 4 ∷ [])) 0 (ints (1 ∷ 2 ∷ 3 ∷ 4 ∷ [])) 1 3 ≡ ints (1 ∷ 1 ∷ 2 ∷ 3 ∷ []) }
    ensures row { SystemRow (setting 64) Means.CopiesArray (copy_arguments 1 (pos 0) 1 (pos 1) (pos 3)) (with_ints (1 ∷ 2 ∷ 3 ∷ 4 ∷ []))
        (with_answer (with_ints (1 ∷ 1 ∷ 2 ∷ 3 ∷ [])) gives_nothing) }
{}

/// Of a text, another object and a text the first is copied into an array of texts, and then the copy fails.
pub fn front_that_fits_is_copied()
    ensures { SystemRow (setting 64) Means.CopiesArray (copy_arguments 1 (pos 0) 2 (pos 0) (pos 3))
        (objects_and_texts (Held.Null ∷ Held.Null ∷ Held.Null ∷ []))
        (with_answer (objects_and_texts (Held.Obj 3 ∷ Held.Null ∷ Held.Null ∷ [])) (fails_by ARRAY_STORE_EXCEPTION)) }
{}
