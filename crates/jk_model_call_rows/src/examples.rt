//! Worked examples of calls. The functions have no bodies: each stands for its clauses, and the classes that they speak of stand in
//! `specs/Examples.antt`.

ghost use Rattle.std.specs.Prelude.{◌≡◌, ℕ, List, ◌∷◌, Some};
ghost use Rattle.jk_model.specs.declared.identifiers.CapId.{CapId};
ghost use Rattle.jk_model.specs.declared.identifiers.SegmentNo.{SegmentNo};
ghost use Rattle.jk_model.specs.declared.values.Value.{Value};
ghost use Rattle.jk_model.specs.declared.values.Value.TheVariants as Held;
ghost use Rattle.jk_model_classes.specs.Classes.{OBJECT};
ghost use Rattle.jk_model_typing.specs.FrameTypes.{STRING};
ghost use Rattle.jk_model_domains.specs.Objects.{Array, NamedObject, Plain, Task, Text, class_type, object_named};
ghost use Rattle.jk_model_heaps.specs.SystemClasses.{ABSTRACT_METHOD_ERROR, ILLEGAL_ACCESS_ERROR, INCOMPATIBLE_CLASS_CHANGE_ERROR, NULL_POINTER_EXCEPTION};
ghost use Rattle.jk_model_call_rows.specs.CallRows.{AtReceiver};
ghost use Rattle.jk_model_call_rows.specs.Examples.{A, ASKS, B, C, HIDES, I, LACKS, OWN, P_A, P_C, P_D, P_E, Q_B, classes_of_calls, classes_of_packages, classes_of_values, constructor, member_at, private_p, public_m};
ghost use Rattle.jk_model_call_rows.specs.Targets.{Fails, InterfaceTarget, Runs, SpecialTarget, Through, VirtualTarget};

/// In a method of C, `invokespecial A.m` runs the m of its parent B. A method of A itself and a private one run as they are named.
pub fn calls_of_methods_above()
    ensures above { SpecialTarget classes_of_calls C (member_at A 0) public_m (Runs (member_at B 0)) }
    ensures own { SpecialTarget classes_of_calls A (member_at A 0) public_m (Runs (member_at A 0)) }
    ensures private { SpecialTarget classes_of_calls A (member_at A 1) private_p (Runs (member_at A 1)) }
{}

/// In a method of C, a constructor of A is run as it is named, and not the one of the parent B: `new A()` stands in a method of C too. A private
/// method of A is run as it is named, and not the public one of the parent that has its name.
pub fn calls_that_are_not_selected()
    ensures constructor { SpecialTarget classes_of_calls C (member_at A 2) constructor (Runs (member_at A 2)) }
    ensures private { SpecialTarget classes_of_calls C (member_at A 1) private_p (Runs (member_at A 1)) }
    ensures no_constructor_above { ¬ SpecialTarget classes_of_calls C (member_at A 2) constructor (Runs (member_at B 2)) }
    ensures no_method_above { ¬ SpecialTarget classes_of_calls C (member_at A 1) private_p (Runs (member_at B 1)) }
{}

/// `invokevirtual A.m` at an object of C runs the m of B.
pub fn calls_at_objects_below()
    ensures { (heap : List NamedObject) (a : ℕ) (fields : List Value) → object_named heap a ≡ Some (Plain C fields)
        → VirtualTarget classes_of_calls heap (Held.Obj a) (member_at A 0) (Runs (member_at B 0)) }
{}

/// `invokeinterface I.m`: at an object whose class doesn't implement I; at one whose class implements it and has no m, or a private
/// one; and at a capability. A method of java/lang/Object is run at an object of any class.
pub fn calls_of_interfaces()
    ensures no_interface { (heap : List NamedObject) (a : ℕ) (fields : List Value) → object_named heap a ≡ Some (Plain A fields)
        → InterfaceTarget classes_of_calls heap (Held.Obj a) (member_at I 0) (Fails INCOMPATIBLE_CLASS_CHANGE_ERROR) }
    ensures no_method { (heap : List NamedObject) (a : ℕ) (fields : List Value) → object_named heap a ≡ Some (Plain LACKS fields)
        → InterfaceTarget classes_of_calls heap (Held.Obj a) (member_at I 0) (Fails ABSTRACT_METHOD_ERROR) }
    ensures private { (heap : List NamedObject) (a : ℕ) (fields : List Value) → object_named heap a ≡ Some (Plain HIDES fields)
        → InterfaceTarget classes_of_calls heap (Held.Obj a) (member_at I 0) (Fails ILLEGAL_ACCESS_ERROR) }
    ensures capability { (heap : List NamedObject) (k : CapId)
        → InterfaceTarget classes_of_calls heap (Held.Cap k) (member_at I 0) (Through k (member_at I 0)) }
    ensures of_object { (heap : List NamedObject) (a : ℕ) (fields : List Value) → object_named heap a ≡ Some (Plain A fields)
        → InterfaceTarget classes_of_calls heap (Held.Obj a) (member_at OBJECT 0) (Runs (member_at OBJECT 0)) }
{}

/// At null no method is looked for, and the method that is named isn't run either.
pub fn calls_at_null()
    ensures selected { (heap : List NamedObject) (arguments : List Value)
        → AtReceiver (λ receiver. VirtualTarget classes_of_calls heap receiver (member_at A 0)) (Held.Null ∷ arguments)
        (Fails NULL_POINTER_EXCEPTION) }
    ensures as_named { (arguments : List Value)
        → AtReceiver (λ receiver. SpecialTarget classes_of_calls A (member_at A 1) private_p) (Held.Null ∷ arguments)
        (Fails NULL_POINTER_EXCEPTION) }
{}

/// A method without a mark is overridden in its runtime package alone, which is a package and a home: not by a class of another package,
/// by one below that which is of the package again, and not by a class of another domain whose package has the same name. A private method
/// of the package overrides it as well.
pub fn calls_within_packages()
    ensures other_package { (heap : List NamedObject) (a : ℕ) (fields : List Value) → object_named heap a ≡ Some (Plain Q_B fields)
        → VirtualTarget classes_of_packages heap (Held.Obj a) (member_at P_A 0) (Runs (member_at P_A 0)) }
    ensures package_again { (heap : List NamedObject) (a : ℕ) (fields : List Value) → object_named heap a ≡ Some (Plain P_C fields)
        → VirtualTarget classes_of_packages heap (Held.Obj a) (member_at P_A 0) (Runs (member_at P_C 0)) }
    ensures other_home { (heap : List NamedObject) (a : ℕ) (fields : List Value) → object_named heap a ≡ Some (Plain P_D fields)
        → VirtualTarget classes_of_packages heap (Held.Obj a) (member_at P_A 0) (Runs (member_at P_A 0)) }
    ensures private { (heap : List NamedObject) (a : ℕ) (fields : List Value) → object_named heap a ≡ Some (Plain P_E fields)
        → VirtualTarget classes_of_packages heap (Held.Obj a) (member_at P_A 0) (Runs (member_at P_E 0)) }
{}

/// `invokevirtual Object.equals` at a text runs that of java/lang/String. At an array it runs java/lang/Object's, also where the elements'
/// class has one; at a handle of a segment and at a capability too, since jk/Task and jk/Capability have none.
pub fn receivers_that_are_no_plain_objects()
    ensures text { (heap : List NamedObject) (a : ℕ) (units : List ℕ) → object_named heap a ≡ Some (Text units)
        → VirtualTarget classes_of_values heap (Held.Obj a) (member_at OBJECT 0) (Runs (member_at STRING 0)) }
    ensures array { (heap : List NamedObject) (a : ℕ) (items : List Value) → object_named heap a ≡ Some (Array (class_type OWN) items)
        → VirtualTarget classes_of_values heap (Held.Obj a) (member_at OBJECT 0) (Runs (member_at OBJECT 0)) }
    ensures task { (heap : List NamedObject) (a : ℕ) (s : SegmentNo) → object_named heap a ≡ Some (Task s)
        → VirtualTarget classes_of_values heap (Held.Obj a) (member_at OBJECT 0) (Runs (member_at OBJECT 0)) }
    ensures capability { (heap : List NamedObject) (k : CapId)
        → VirtualTarget classes_of_values heap (Held.Cap k) (member_at OBJECT 0) (Runs (member_at OBJECT 0)) }
    ensures plain { (heap : List NamedObject) (a : ℕ) (fields : List Value) → object_named heap a ≡ Some (Plain OWN fields)
        → VirtualTarget classes_of_values heap (Held.Obj a) (member_at OBJECT 0) (Runs (member_at OWN 0)) }
{}

/// `invokeinterface` of a method of java/lang/Object is no call through a capability, but where the interface declares it itself. An array
/// implements no interface that has a method, whatever its elements implement.
pub fn interfaces_of_other_receivers()
    ensures of_object { (heap : List NamedObject) (k : CapId)
        → InterfaceTarget classes_of_values heap (Held.Cap k) (member_at OBJECT 0) (Runs (member_at OBJECT 0)) }
    ensures not_through { (heap : List NamedObject) (k : CapId)
        → ¬ InterfaceTarget classes_of_values heap (Held.Cap k) (member_at OBJECT 0) (Through k (member_at OBJECT 0)) }
    ensures of_interface { (heap : List NamedObject) (k : CapId)
        → InterfaceTarget classes_of_values heap (Held.Cap k) (member_at ASKS 1) (Through k (member_at ASKS 1)) }
    ensures of_object_at_text { (heap : List NamedObject) (a : ℕ) (units : List ℕ) → object_named heap a ≡ Some (Text units)
        → InterfaceTarget classes_of_values heap (Held.Obj a) (member_at OBJECT 0) (Runs (member_at STRING 0)) }
    ensures array { (heap : List NamedObject) (a : ℕ) (items : List Value) → object_named heap a ≡ Some (Array (class_type OWN) items)
        → InterfaceTarget classes_of_values heap (Held.Obj a) (member_at ASKS 0) (Fails INCOMPATIBLE_CLASS_CHANGE_ERROR) }
{}
