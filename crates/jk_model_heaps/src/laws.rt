//! What the definitions in `specs/` say by themselves. The functions have no bodies: each stands for its clauses.

ghost use Rattle.std.specs.Prelude.{List, codes};
ghost use Rattle.std.specs.List.{AllZip};
ghost use Rattle.jk_model.specs.declared.identifiers.ClassId.{ClassId};
ghost use Rattle.jk_model_classes.specs.declared.records.ClassRecord.{ClassRecord};
ghost use Rattle.jk_model_classes.specs.Layouts.{instance_fields};
ghost use Rattle.jk_model_classes.specs.Stubs.{IsSystemNamed};
ghost use Rattle.jk_model_heaps.specs.Heaps.{IsFieldWith, field_records};
ghost use Rattle.jk_model_heaps.specs.SystemClasses.{ABSTRACT_METHOD_ERROR, ARRAY_INDEX_EXCEPTION, ARRAY_STORE_EXCEPTION, CLASS_CAST_EXCEPTION, CLONEABLE, DOMAIN, ERROR, EXCEPTION_IN_INITIALIZER_ERROR, ILLEGAL_ACCESS_ERROR, ILLEGAL_ARGUMENT_EXCEPTION, INCOMPATIBLE_CLASS_CHANGE_ERROR, INTEGER, NEGATIVE_ARRAY_SIZE_EXCEPTION, NOT_COPIABLE_EXCEPTION, NO_CLASS_DEF_FOUND_ERROR, NULL_POINTER_EXCEPTION, NUMBER_FORMAT_EXCEPTION, OUT_OF_MEMORY_ERROR, QUOTA_EXCEPTION, REMOTE, REMOTE_EXCEPTION, REPOSITORY, REVOKED_EXCEPTION, SECURITY_EXCEPTION, SERIALIZABLE, STACK_OVERFLOW_ERROR, STRING_BUFFER, STRING_BUILDER, STRING_INDEX_EXCEPTION, SYSTEM, THREAD_DEATH};

/// The numbers by which rules name classes are those of the system table: of classes that are no throwables.
pub fn classes_that_are_no_throwables()
    ensures serializable { IsSystemNamed (codes "java/io/Serializable") SERIALIZABLE }
    ensures cloneable { IsSystemNamed (codes "java/lang/Cloneable") CLONEABLE }
    ensures string_buffer { IsSystemNamed (codes "java/lang/StringBuffer") STRING_BUFFER }
    ensures string_builder { IsSystemNamed (codes "java/lang/StringBuilder") STRING_BUILDER }
    ensures system { IsSystemNamed (codes "java/lang/System") SYSTEM }
    ensures integer { IsSystemNamed (codes "java/lang/Integer") INTEGER }
    ensures remote { IsSystemNamed (codes "jk/Remote") REMOTE }
    ensures repository { IsSystemNamed (codes "jk/Repository") REPOSITORY }
    ensures domain { IsSystemNamed (codes "jk/Domain") DOMAIN }
{}

/// The same of exceptions.
pub fn classes_of_exceptions()
    ensures remote_exception { IsSystemNamed (codes "jk/RemoteException") REMOTE_EXCEPTION }
    ensures array_store_exception { IsSystemNamed (codes "java/lang/ArrayStoreException") ARRAY_STORE_EXCEPTION }
    ensures class_cast_exception { IsSystemNamed (codes "java/lang/ClassCastException") CLASS_CAST_EXCEPTION }
    ensures illegal_argument_exception { IsSystemNamed (codes "java/lang/IllegalArgumentException") ILLEGAL_ARGUMENT_EXCEPTION }
    ensures negative_array_size_exception { IsSystemNamed (codes "java/lang/NegativeArraySizeException") NEGATIVE_ARRAY_SIZE_EXCEPTION }
    ensures null_pointer_exception { IsSystemNamed (codes "java/lang/NullPointerException") NULL_POINTER_EXCEPTION }
    ensures security_exception { IsSystemNamed (codes "java/lang/SecurityException") SECURITY_EXCEPTION }
    ensures number_format_exception { IsSystemNamed (codes "java/lang/NumberFormatException") NUMBER_FORMAT_EXCEPTION }
    ensures array_index_exception { IsSystemNamed (codes "java/lang/ArrayIndexOutOfBoundsException") ARRAY_INDEX_EXCEPTION }
    ensures string_index_exception { IsSystemNamed (codes "java/lang/StringIndexOutOfBoundsException") STRING_INDEX_EXCEPTION }
    ensures revoked_exception { IsSystemNamed (codes "jk/RevokedException") REVOKED_EXCEPTION }
    ensures quota_exception { IsSystemNamed (codes "jk/QuotaException") QUOTA_EXCEPTION }
    ensures not_copiable_exception { IsSystemNamed (codes "jk/NotCopiableException") NOT_COPIABLE_EXCEPTION }
{}

/// The same of errors.
pub fn classes_of_errors()
    ensures error { IsSystemNamed (codes "java/lang/Error") ERROR }
    ensures thread_death { IsSystemNamed (codes "java/lang/ThreadDeath") THREAD_DEATH }
    ensures incompatible_class_change_error { IsSystemNamed (codes "java/lang/IncompatibleClassChangeError") INCOMPATIBLE_CLASS_CHANGE_ERROR }
    ensures no_class_def_found_error { IsSystemNamed (codes "java/lang/NoClassDefFoundError") NO_CLASS_DEF_FOUND_ERROR }
    ensures exception_in_initializer_error { IsSystemNamed (codes "java/lang/ExceptionInInitializerError") EXCEPTION_IN_INITIALIZER_ERROR }
    ensures abstract_method_error { IsSystemNamed (codes "java/lang/AbstractMethodError") ABSTRACT_METHOD_ERROR }
    ensures illegal_access_error { IsSystemNamed (codes "java/lang/IllegalAccessError") ILLEGAL_ACCESS_ERROR }
    ensures out_of_memory_error { IsSystemNamed (codes "java/lang/OutOfMemoryError") OUT_OF_MEMORY_ERROR }
    ensures stack_overflow_error { IsSystemNamed (codes "java/lang/StackOverflowError") STACK_OVERFLOW_ERROR }
{}

/// An object's fields stand in one order, whether they are told by their members or by their records.
pub fn fields_stand_in_one_order()
    ensures { (classes : List ClassRecord) (c : ClassId) → AllZip (IsFieldWith classes) (instance_fields classes c) (field_records classes c) }
{}
