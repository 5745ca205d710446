//! What the definitions in `specs/` say of worked examples. The functions have no bodies: each stands for its clauses, and the examples
//! are in `specs/Examples.antt`.

ghost use Rattle.std.specs.Prelude.{◌≡◌, [], ◌∷◌, Some, None, Ok, Err, codes, replicate, false, true};
ghost use Rattle.jk_model.specs.declared.steps.Raise.TheVariants.{Fresh, Standing};
ghost use Rattle.jk_model.specs.declared.steps.Standing.TheVariants as Stands;
ghost use Rattle.jk_model_heaps.specs.SystemClasses.{ILLEGAL_ARGUMENT_EXCEPTION};
ghost use Rattle.jk_model_sharing.specs.BoundNames.{Binds, LooksUp, Unbinds, without_names_of};
ghost use Rattle.jk_model_sharing.specs.CapabilityCalls.{Creates, Revokes, all_revoked, revoked_capability};
ghost use Rattle.jk_model_sharing.specs.Examples.{after_end_of, ann, bob, bound, cap, cid, class_of_target, first_capability, range_with, segment, shared_domain, state_with, thread, three_threads, two_names};
ghost use Rattle.jk_model_sharing.specs.Segments.{as_orphan, count_started_in, shared_form, standing_below, is_numbered, stopped_in, suspended_in, with_revoked, with_stop, with_suspended};
ghost use Rattle.jk_model_sharing.specs.SharedStates.{Drops};

/// The end of a domain takes its segments out of a stack. What stood directly on one of them is an orphan, and nothing else is: of
/// ann, bob, bob, cid without bob that of cid alone.
pub fn segments_are_taken_out()
    ensures middle { after_end_of bob (segment 1 ann ∷ segment 2 bob ∷ segment 3 ann ∷ []) ≡ segment 1 ann ∷ as_orphan (segment 3 ann) ∷ [] }
    ensures two_in_a_row { after_end_of bob (segment 1 ann ∷ segment 2 bob ∷ segment 3 bob ∷ segment 4 cid ∷ [])
        ≡ segment 1 ann ∷ as_orphan (segment 4 cid) ∷ [] }
    ensures caller { after_end_of ann (segment 1 ann ∷ segment 2 bob ∷ []) ≡ as_orphan (segment 2 bob) ∷ [] }
    ensures lowest { after_end_of ann (segment 1 ann ∷ segment 2 bob ∷ segment 3 bob ∷ segment 4 cid ∷ [])
        ≡ as_orphan (segment 2 bob) ∷ segment 3 bob ∷ segment 4 cid ∷ [] }
    ensures orphan_stays { after_end_of cid (as_orphan (segment 2 bob) ∷ segment 3 bob ∷ []) ≡ as_orphan (segment 2 bob) ∷ segment 3 bob ∷ [] }
    ensures all { after_end_of bob (segment 1 bob ∷ segment 2 bob ∷ []) ≡ [] }
{}

/// Where the top is taken out, the new top has a RevokedException pending, also where it is an orphan by the same end.
pub fn new_tops_are_revoked()
    ensures caller { after_end_of bob (segment 1 ann ∷ segment 2 bob ∷ []) ≡ with_revoked true (segment 1 ann) ∷ [] }
    ensures orphan { after_end_of ann (segment 1 ann ∷ segment 2 bob ∷ segment 3 ann ∷ []) ≡ with_revoked true (as_orphan (segment 2 bob)) ∷ [] }
    ensures two_ends { after_end_of cid (after_end_of bob (segment 1 ann ∷ segment 2 bob ∷ segment 3 bob ∷ segment 4 cid ∷ []))
        ≡ with_revoked true (segment 1 ann) ∷ [] }
{}

/// The end of bob: it isn't live, its capability is revoked, and the name that it bound is removed, though that led to a capability of ann.
/// The thread in which bob called ann goes on as an orphan of ann, and is still one of those that were started in bob. The thread in which
/// ann called bob has a RevokedException pending, and the one that had segments of bob alone has ended.
pub fn a_domain_ends()
    ensures drops { Drops three_threads bob
        (state_with (shared_domain false bob (range_with (revoked_capability first_capability ∷ []))) (bound (codes "p") 1 ann ∷ [])
        (thread 1 ann (with_revoked true (segment 1 ann) ∷ []) ∷ thread 3 bob (as_orphan (segment 5 ann) ∷ []) ∷ [])) }
    ensures started { count_started_in (thread 1 ann (with_revoked true (segment 1 ann) ∷ []) ∷ thread 3 bob (as_orphan (segment 5 ann) ∷ []) ∷ []) bob
        ≡ 1 }
{}

/// A flag is set of the segment of a number alone, and nothing changes where there is none.
pub fn flags_are_of_one_segment()
    ensures caller { suspended_in shared_form (record { 0 = 1 }) (segment 1 ann ∷ segment 2 bob ∷ [])
        ≡ with_suspended true (segment 1 ann) ∷ segment 2 bob ∷ [] }
    ensures gone { stopped_in shared_form (record { 0 = 3 }) (segment 1 ann ∷ segment 2 bob ∷ []) ≡ segment 1 ann ∷ segment 2 bob ∷ [] }
    ensures below { standing_below (is_numbered shared_form (record { 0 = 2 })) (segment 1 ann ∷ segment 2 bob ∷ []) ≡ Some (segment 1 ann) }
    ensures lowest { standing_below (is_numbered shared_form (record { 0 = 1 })) (segment 1 ann ∷ segment 2 bob ∷ []) ≡ None }
{}

/// A domain that may have one name binds its own name anew, which keeps its place; no second one, and no other domain's.
pub fn names_that_are_bound()
    ensures own_name { Binds two_names 1 (bound (codes "p") 3 ann) (Ok tt) (bound (codes "p") 3 ann ∷ bound (codes "q") 2 bob ∷ []) }
    ensures second { Binds two_names 1 (bound (codes "r") 1 ann) (Err (Standing Stands.Quota)) two_names }
    ensures last { Binds two_names 2 (bound (codes "r") 1 ann) (Ok tt)
        (bound (codes "p") 1 ann ∷ bound (codes "q") 2 bob ∷ bound (codes "r") 1 ann ∷ []) }
    ensures of_another { Binds two_names 9 (bound (codes "q") 1 ann) (Err (Fresh ILLEGAL_ARGUMENT_EXCEPTION)) two_names }
    ensures too_long { Binds [] 9 (bound (replicate 65 97) 1 ann) (Err (Fresh ILLEGAL_ARGUMENT_EXCEPTION)) [] }
{}

/// Whoever asks finds a name; the domain that bound it alone removes it, and no gap is left.
pub fn names_that_are_removed()
    ensures found { LooksUp two_names (codes "q") (Some (cap 2)) }
    ensures not_found { LooksUp two_names (codes "r") None }
    ensures own { Unbinds two_names ann (codes "p") (Ok tt) (bound (codes "q") 2 bob ∷ []) }
    ensures of_another { Unbinds two_names ann (codes "q") (Err (Standing Stands.Security)) two_names }
    ensures not_bound { Unbinds two_names ann (codes "r") (Ok tt) two_names }
    ensures ended { without_names_of ann two_names ≡ bound (codes "q") 2 bob ∷ [] }
{}

/// The second of two numbers is given out, and no third one, also where the first capability was revoked.
pub fn capabilities_that_are_created()
    ensures second { Creates (range_with (first_capability ∷ [])) class_of_target 9 (Ok (cap 6)) (range_with (first_capability ∷ first_capability ∷ [])) }
    ensures third { Creates (range_with (revoked_capability first_capability ∷ first_capability ∷ [])) class_of_target 9
        (Err (Standing Stands.Quota)) (range_with (revoked_capability first_capability ∷ first_capability ∷ [])) }
{}

/// A domain revokes its own capabilities alone, and a second time changes nothing.
pub fn capabilities_that_are_revoked()
    ensures own { Revokes (range_with (first_capability ∷ first_capability ∷ [])) (cap 6) (Ok tt)
        (range_with (first_capability ∷ revoked_capability first_capability ∷ [])) }
    ensures again { Revokes (range_with (revoked_capability first_capability ∷ [])) (cap 5) (Ok tt)
        (range_with (revoked_capability first_capability ∷ [])) }
    ensures of_another { Revokes (range_with (first_capability ∷ [])) (cap 4) (Err (Standing Stands.Security)) (range_with (first_capability ∷ [])) }
    ensures all { all_revoked (range_with (first_capability ∷ first_capability ∷ []))
        ≡ range_with (revoked_capability first_capability ∷ revoked_capability first_capability ∷ []) }
{}
