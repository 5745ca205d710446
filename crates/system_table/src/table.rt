//! The table, in four groups one after the other. A class's number is its place in all of them, and a
//! method's number its place among all methods.

ghost use Rattle.std.specs.Prelude.{◌≡◌, length};
ghost use Rattle.system_table.specs.Entry.{AreEntries};

use crate::entry::{SystemClass, SystemField, SystemMethod};
use jk_model::AccessFlags;

// Flags. Public is a part of each.
const PUBLIC: u16 = AccessFlags::PUBLIC.0;

const STATIC: u16 = PUBLIC | AccessFlags::STATIC.0;

const FINAL: u16 = PUBLIC | AccessFlags::FINAL.0;

const STATIC_FINAL: u16 = STATIC | AccessFlags::FINAL.0;

const INTERFACE: u16 = PUBLIC | AccessFlags::INTERFACE.0;

const ABSTRACT: u16 = PUBLIC | AccessFlags::ABSTRACT.0;

// The numbers of the parents.
const OBJECT: u16 = 0;

const THROWABLE: u16 = 9;

const EXCEPTION: u16 = 15;

const ERROR: u16 = 16;

const RUNTIME_EXCEPTION: u16 = 17;

const REMOTE_EXCEPTION: u16 = 18;

const ILLEGAL_ARGUMENT_EXCEPTION: u16 = 22;

const INDEX_OUT_OF_BOUNDS_EXCEPTION: u16 = 24;

const LINKAGE_ERROR: u16 = 32;

const VIRTUAL_MACHINE_ERROR: u16 = 33;

const INCOMPATIBLE_CLASS_CHANGE_ERROR: u16 = 35;

/// The interfaces of a class that lists `java/io/Serializable` alone.
const SERIALIZABLE: &[u16] = &[1];

/// A method: its number, flags, name and descriptor.
macro_rules! method {
    ($number:expr, $flags:ident $name:literal $descriptor:literal) => {
        SystemMethod { name: $name, descriptor: $descriptor, flags: $flags, number: $number }
    };
}

/// A hidden field, by its name: a text.
macro_rules! hidden {
    ($name:literal) => {
        SystemField { name: $name, descriptor: "Ljava/lang/String;", flags: PUBLIC }
    };
}

/// An interface without members, by its name.
macro_rules! interface {
    ($name:literal) => {
        SystemClass {
            name: $name,
            parent: Some(OBJECT),
            flags: INTERFACE,
            interfaces: &[],
            closed: false,
            copiable: false,
            fields: &[],
            methods: &[],
        }
    };
}

/// A child of `java/lang/Object` that is closed: its name, flags, fields and methods.
macro_rules! closed {
    ($name:literal, $flags:expr, $fields:expr, $methods:expr) => {
        SystemClass {
            name: $name,
            parent: Some(OBJECT),
            flags: $flags,
            interfaces: &[],
            closed: true,
            copiable: false,
            fields: $fields,
            methods: $methods,
        }
    };
}

/// The same, copiable and serializable: its name, fields and methods.
macro_rules! closed_copiable {
    ($name:literal, $fields:expr, $methods:expr) => {
        SystemClass {
            name: $name,
            parent: Some(OBJECT),
            flags: PUBLIC,
            interfaces: SERIALIZABLE,
            closed: true,
            copiable: true,
            fields: $fields,
            methods: $methods,
        }
    };
}

/// A class below `java/lang/Throwable` with the constructors without an argument and with a text: its
/// first constructor's number, its flags, its name and its parent's number.
macro_rules! throwable {
    ($first:expr, $flags:ident $name:literal extends $parent:ident) => {
        SystemClass {
            name: $name,
            parent: Some($parent),
            flags: $flags,
            interfaces: &[],
            closed: false,
            copiable: true,
            fields: &[],
            methods: &[
                method!($first, PUBLIC "<init>" "()V"),
                method!($first + 1, PUBLIC "<init>" "(Ljava/lang/String;)V"),
            ],
        }
    };
}

/// Numbers 0 to 9: the classes of `java/lang` and `java/io` that are no throwables, and then
/// `java/lang/Throwable`.
static LANGUAGE: [SystemClass; 10] = [
    SystemClass {
        name: "java/lang/Object",
        parent: None,
        flags: PUBLIC,
        interfaces: &[],
        closed: false,
        copiable: false,
        fields: &[],
        methods: &[
            method!(0, PUBLIC "<init>" "()V"),
            method!(1, PUBLIC "equals" "(Ljava/lang/Object;)Z"),
        ],
    },
    interface!("java/io/Serializable"),
    interface!("java/lang/Cloneable"),
    closed_copiable!(
        "java/lang/String",
        &[],
        &[
            method!(2, PUBLIC "length" "()I"),
            method!(3, PUBLIC "charAt" "(I)C"),
            method!(4, PUBLIC "equals" "(Ljava/lang/Object;)Z"),
            method!(5, PUBLIC "concat" "(Ljava/lang/String;)Ljava/lang/String;"),
            method!(6, PUBLIC "substring" "(II)Ljava/lang/String;"),
            method!(7, STATIC "valueOf" "(I)Ljava/lang/String;"),
            method!(8, STATIC "valueOf" "(J)Ljava/lang/String;"),
            method!(9, STATIC "valueOf" "(C)Ljava/lang/String;"),
            method!(10, STATIC "valueOf" "(Z)Ljava/lang/String;"),
        ]
    ),
    closed_copiable!(
        "java/lang/StringBuffer",
        &[hidden!(".text")],
        &[
            method!(11, PUBLIC "<init>" "()V"),
            method!(12, PUBLIC "<init>" "(Ljava/lang/String;)V"),
            method!(13, PUBLIC "length" "()I"),
            method!(14, PUBLIC "toString" "()Ljava/lang/String;"),
            method!(15, PUBLIC "append" "(Ljava/lang/String;)Ljava/lang/StringBuffer;"),
            method!(16, PUBLIC "append" "(I)Ljava/lang/StringBuffer;"),
            method!(17, PUBLIC "append" "(J)Ljava/lang/StringBuffer;"),
            method!(18, PUBLIC "append" "(C)Ljava/lang/StringBuffer;"),
            method!(19, PUBLIC "append" "(Z)Ljava/lang/StringBuffer;"),
        ]
    ),
    closed_copiable!(
        "java/lang/StringBuilder",
        &[hidden!(".text")],
        &[
            method!(20, PUBLIC "<init>" "()V"),
            method!(21, PUBLIC "<init>" "(Ljava/lang/String;)V"),
            method!(22, PUBLIC "length" "()I"),
            method!(23, PUBLIC "toString" "()Ljava/lang/String;"),
            method!(24, PUBLIC "append" "(Ljava/lang/String;)Ljava/lang/StringBuilder;"),
            method!(25, PUBLIC "append" "(I)Ljava/lang/StringBuilder;"),
            method!(26, PUBLIC "append" "(J)Ljava/lang/StringBuilder;"),
            method!(27, PUBLIC "append" "(C)Ljava/lang/StringBuilder;"),
            method!(28, PUBLIC "append" "(Z)Ljava/lang/StringBuilder;"),
        ]
    ),
    closed!(
        "java/io/PrintStream",
        PUBLIC,
        &[],
        &[
            method!(29, PUBLIC "println" "()V"),
            method!(30, PUBLIC "println" "(Ljava/lang/String;)V"),
            method!(31, PUBLIC "println" "(I)V"),
            method!(32, PUBLIC "println" "(J)V"),
            method!(33, PUBLIC "println" "(C)V"),
            method!(34, PUBLIC "println" "(Z)V"),
        ]
    ),
    closed!(
        "java/lang/System",
        PUBLIC,
        &[SystemField {
            name: "out",
            descriptor: "Ljava/io/PrintStream;",
            flags: STATIC_FINAL
        }],
        &[method!(35, STATIC "arraycopy" "(Ljava/lang/Object;ILjava/lang/Object;II)V")]
    ),
    closed!(
        "java/lang/Integer",
        PUBLIC,
        &[],
        &[method!(36, STATIC "parseInt" "(Ljava/lang/String;)I")]
    ),
    SystemClass {
        name: "java/lang/Throwable",
        parent: Some(OBJECT),
        flags: PUBLIC,
        interfaces: SERIALIZABLE,
        closed: false,
        copiable: true,
        fields: &[hidden!(".message")],
        methods: &[
            method!(37, PUBLIC "<init>" "()V"),
            method!(38, PUBLIC "<init>" "(Ljava/lang/String;)V"),
            method!(39, PUBLIC "getMessage" "()Ljava/lang/String;"),
        ],
    },
];

/// Numbers 10 to 14: the classes of `jk` that are no throwables.
static KERNEL: [SystemClass; 5] = [
    interface!("jk/Remote"),
    closed!(
        "jk/Capability",
        ABSTRACT,
        &[],
        &[
            method!(40, STATIC "create" "(Ljk/Remote;)Ljk/Capability;"),
            method!(41, FINAL "revoke" "()V"),
        ]
    ),
    closed!(
        "jk/Repository",
        PUBLIC,
        &[],
        &[
            method!(42, STATIC "bind" "(Ljava/lang/String;Ljk/Capability;)V"),
            method!(43, STATIC "lookup" "(Ljava/lang/String;)Ljk/Capability;"),
            method!(44, STATIC "unbind" "(Ljava/lang/String;)V"),
        ]
    ),
    closed!(
        "jk/Domain",
        PUBLIC,
        &[],
        &[
            method!(45, STATIC "name" "()Ljava/lang/String;"),
            method!(46, STATIC "freeWords" "()I"),
            method!(47, STATIC "terminate" "()V"),
        ]
    ),
    closed!(
        "jk/Task",
        PUBLIC,
        &[],
        &[
            method!(48, STATIC "current" "()Ljk/Task;"),
            method!(49, PUBLIC "suspend" "()V"),
            method!(50, PUBLIC "resume" "()V"),
            method!(51, PUBLIC "stop" "()V"),
        ]
    ),
];

/// Numbers 15 to 31: the two classes below `java/lang/Throwable`, the exceptions of `java/lang`, and
/// `jk/RemoteException`.
static EXCEPTIONS: [SystemClass; 17] = [
    throwable!(52, PUBLIC "java/lang/Exception" extends THROWABLE),
    throwable!(54, PUBLIC "java/lang/Error" extends THROWABLE),
    throwable!(56, PUBLIC "java/lang/RuntimeException" extends EXCEPTION),
    throwable!(58, PUBLIC "jk/RemoteException" extends EXCEPTION),
    throwable!(60, PUBLIC "java/lang/ArithmeticException" extends RUNTIME_EXCEPTION),
    throwable!(62, PUBLIC "java/lang/ArrayStoreException" extends RUNTIME_EXCEPTION),
    throwable!(64, PUBLIC "java/lang/ClassCastException" extends RUNTIME_EXCEPTION),
    throwable!(66, PUBLIC "java/lang/IllegalArgumentException" extends RUNTIME_EXCEPTION),
    throwable!(68, PUBLIC "java/lang/IllegalStateException" extends RUNTIME_EXCEPTION),
    throwable!(70, PUBLIC "java/lang/IndexOutOfBoundsException" extends RUNTIME_EXCEPTION),
    throwable!(72, PUBLIC "java/lang/NegativeArraySizeException" extends RUNTIME_EXCEPTION),
    throwable!(74, PUBLIC "java/lang/NullPointerException" extends RUNTIME_EXCEPTION),
    throwable!(76, PUBLIC "java/lang/SecurityException" extends RUNTIME_EXCEPTION),
    throwable!(78, PUBLIC "java/lang/UnsupportedOperationException" extends RUNTIME_EXCEPTION),
    throwable!(80, PUBLIC "java/lang/NumberFormatException" extends ILLEGAL_ARGUMENT_EXCEPTION),
    throwable!(82, PUBLIC "java/lang/ArrayIndexOutOfBoundsException" extends INDEX_OUT_OF_BOUNDS_EXCEPTION),
    throwable!(84, PUBLIC "java/lang/StringIndexOutOfBoundsException" extends INDEX_OUT_OF_BOUNDS_EXCEPTION),
];

/// Numbers 32 to 44: the errors, and the exceptions below `jk/RemoteException`.
static ERRORS: [SystemClass; 13] = [
    throwable!(86, PUBLIC "java/lang/LinkageError" extends ERROR),
    throwable!(88, ABSTRACT "java/lang/VirtualMachineError" extends ERROR),
    SystemClass {
        name: "java/lang/ThreadDeath",
        parent: Some(ERROR),
        flags: PUBLIC,
        interfaces: &[],
        closed: false,
        copiable: true,
        fields: &[],
        methods: &[method!(90, PUBLIC "<init>" "()V")],
    },
    throwable!(91, PUBLIC "java/lang/IncompatibleClassChangeError" extends LINKAGE_ERROR),
    throwable!(93, PUBLIC "java/lang/NoClassDefFoundError" extends LINKAGE_ERROR),
    throwable!(95, PUBLIC "java/lang/ExceptionInInitializerError" extends LINKAGE_ERROR),
    throwable!(97, PUBLIC "java/lang/AbstractMethodError" extends INCOMPATIBLE_CLASS_CHANGE_ERROR),
    throwable!(99, PUBLIC "java/lang/IllegalAccessError" extends INCOMPATIBLE_CLASS_CHANGE_ERROR),
    throwable!(101, PUBLIC "java/lang/OutOfMemoryError" extends VIRTUAL_MACHINE_ERROR),
    throwable!(103, PUBLIC "java/lang/StackOverflowError" extends VIRTUAL_MACHINE_ERROR),
    throwable!(105, PUBLIC "jk/RevokedException" extends REMOTE_EXCEPTION),
    throwable!(107, PUBLIC "jk/QuotaException" extends REMOTE_EXCEPTION),
    throwable!(109, PUBLIC "jk/NotCopiableException" extends REMOTE_EXCEPTION),
];

/// The classes from number 0 on.
pub(crate) fn language() -> &'static [SystemClass]
    ensures length { length result.now ≡ 10 }
    ensures entries { AreEntries 0 result.now }
{
    &LANGUAGE
}

/// The classes from number 10 on.
pub(crate) fn kernel() -> &'static [SystemClass]
    ensures length { length result.now ≡ 5 }
    ensures entries { AreEntries 10 result.now }
{
    &KERNEL
}

/// The classes from number 15 on.
pub(crate) fn exceptions() -> &'static [SystemClass]
    ensures length { length result.now ≡ 17 }
    ensures entries { AreEntries 15 result.now }
{
    &EXCEPTIONS
}

/// The classes from number 32 on.
pub(crate) fn errors() -> &'static [SystemClass]
    ensures length { length result.now ≡ 13 }
    ensures entries { AreEntries 32 result.now }
{
    &ERRORS
}
