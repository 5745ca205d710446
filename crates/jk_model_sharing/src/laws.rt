//! What the definitions in `specs/` say by themselves. The functions have no bodies: each stands for its clauses.

ghost use Rattle.std.specs.Prelude.{◌≡◌, ℕ, List, Result, filter, map, not};
ghost use Rattle.jk_model.specs.declared.identifiers.CapId.{CapId};
ghost use Rattle.jk_model.specs.declared.identifiers.ClassId.{ClassId};
ghost use Rattle.jk_model.specs.declared.identifiers.DomainId.{DomainId};
ghost use Rattle.jk_model.specs.declared.steps.Raise.{Raise};
ghost use Rattle.jk_model_heaps.specs.Capabilities.{CapRange};
ghost use Rattle.jk_model_sharing.specs.BoundNames.{Binds, BoundName, Unbinds};
ghost use Rattle.jk_model_sharing.specs.CapabilityCalls.{Creates, Revokes};
ghost use Rattle.jk_model_sharing.specs.Segments.{SharedSegment, is_of, segments_left, shared_form};

/// What is left of a stack at the end of a domain are the segments that aren't the domain's, in their order.
pub fn others_are_left()
    ensures { (d : DomainId) (segments : List SharedSegment)
        → map (λ (s : SharedSegment). s.number) (segments_left shared_form d segments)
        ≡ map (λ (s : SharedSegment). s.number) (filter (λ (s : SharedSegment). not (is_of shared_form d s)) segments) }
{}

/// Each call of a domain has one answer at most, and leaves one state after it.
pub fn calls_have_one_answer()
    ensures creates { (r : CapRange) (class : ClassId) (target : ℕ) (x y : Result CapId Raise) (s t : CapRange)
        → Creates r class target x s → Creates r class target y t → (x ≡ y) × (s ≡ t) }
    ensures revokes { (r : CapRange) (k : CapId) (x y : Result (Unit {0}) Raise) (s t : CapRange)
        → Revokes r k x s → Revokes r k y t → (x ≡ y) × (s ≡ t) }
    ensures binds { (names : List BoundName) (quota : ℕ) (asked : BoundName) (x y : Result (Unit {0}) Raise) (s t : List BoundName)
        → Binds names quota asked x s → Binds names quota asked y t → (x ≡ y) × (s ≡ t) }
    ensures unbinds { (names : List BoundName) (d : DomainId) (text : List ℕ) (x y : Result (Unit {0}) Raise) (s t : List BoundName)
        → Unbinds names d text x s → Unbinds names d text y t → (x ≡ y) × (s ≡ t) }
{}
