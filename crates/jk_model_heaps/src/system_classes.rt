//! The system classes that code names, by their places in the system table. Definitions have the same numbers by the same names.

use jk_model::ClassId;

pub const OBJECT: ClassId = ClassId(0);

pub const SERIALIZABLE: ClassId = ClassId(1);

pub const CLONEABLE: ClassId = ClassId(2);

pub const STRING: ClassId = ClassId(3);

pub const STRING_BUFFER: ClassId = ClassId(4);

pub const STRING_BUILDER: ClassId = ClassId(5);

pub const PRINT_STREAM: ClassId = ClassId(6);

pub const SYSTEM: ClassId = ClassId(7);

pub const INTEGER: ClassId = ClassId(8);

pub const THROWABLE: ClassId = ClassId(9);

pub const REMOTE: ClassId = ClassId(10);

pub const CAPABILITY: ClassId = ClassId(11);

pub const REPOSITORY: ClassId = ClassId(12);

pub const DOMAIN: ClassId = ClassId(13);

pub const TASK: ClassId = ClassId(14);

pub const ERROR: ClassId = ClassId(16);

pub const REMOTE_EXCEPTION: ClassId = ClassId(18);

pub const ARRAY_STORE_EXCEPTION: ClassId = ClassId(20);

pub const CLASS_CAST_EXCEPTION: ClassId = ClassId(21);

pub const ILLEGAL_ARGUMENT_EXCEPTION: ClassId = ClassId(22);

pub const NEGATIVE_ARRAY_SIZE_EXCEPTION: ClassId = ClassId(25);

pub const NULL_POINTER_EXCEPTION: ClassId = ClassId(26);

pub const SECURITY_EXCEPTION: ClassId = ClassId(27);

pub const NUMBER_FORMAT_EXCEPTION: ClassId = ClassId(29);

pub const ARRAY_INDEX_EXCEPTION: ClassId = ClassId(30);

pub const STRING_INDEX_EXCEPTION: ClassId = ClassId(31);

pub const THREAD_DEATH: ClassId = ClassId(34);

pub const INCOMPATIBLE_CLASS_CHANGE_ERROR: ClassId = ClassId(35);

pub const NO_CLASS_DEF_FOUND_ERROR: ClassId = ClassId(36);

pub const EXCEPTION_IN_INITIALIZER_ERROR: ClassId = ClassId(37);

pub const ABSTRACT_METHOD_ERROR: ClassId = ClassId(38);

pub const ILLEGAL_ACCESS_ERROR: ClassId = ClassId(39);

pub const OUT_OF_MEMORY_ERROR: ClassId = ClassId(40);

pub const STACK_OVERFLOW_ERROR: ClassId = ClassId(41);

pub const REVOKED_EXCEPTION: ClassId = ClassId(42);

pub const QUOTA_EXCEPTION: ClassId = ClassId(43);

pub const NOT_COPIABLE_EXCEPTION: ClassId = ClassId(44);
