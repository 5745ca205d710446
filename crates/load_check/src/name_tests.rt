//! Folders whose classes name others: C17, C18 and C19.

use crate::cases::Wanted::{At, Loads};
use crate::cases::{Case, expect_answers};
use crate::worlds::Domain;
use jk_model::Rule;
use std::test::Fail;

/// A class of a path and a name.
const PATHS: &[Case<'static>] = &[
    (
        "in-its-package",
        &[("p/q/A.class", "class 0021 p/q/A java/lang/Object")],
        Loads,
    ),
    (
        "class-without-its-package",
        &[("p/A.class", "class 0021 A java/lang/Object")],
        At(Rule::C17, "p/A.class", 0),
    ),
    (
        "file-outside-its-package",
        &[("A.class", "class 0021 p/A java/lang/Object")],
        At(Rule::C17, "A.class", 0),
    ),
    (
        "other-case-of-a-letter",
        &[("a.class", "class 0021 A java/lang/Object")],
        At(Rule::C17, "a.class", 0),
    ),
    (
        "in-java-lang",
        &[(
            "java/lang/A.class",
            "class 0021 java/lang/A java/lang/Object",
        )],
        At(Rule::C17, "java/lang/A.class", 0),
    ),
    (
        "in-jk",
        &[("jk/A.class", "class 0021 jk/A java/lang/Object")],
        At(Rule::C17, "jk/A.class", 0),
    ),
    (
        "name-of-a-system-class",
        &[("java/lang/Object.class", "class 0021 java/lang/Object A")],
        At(Rule::C17, "java/lang/Object.class", 0),
    ),
    // A package that only begins so.
    (
        "package-that-begins-alike",
        &[("javax/A.class", "class 0021 javax/A java/lang/Object")],
        Loads,
    ),
    (
        "name-of-a-package",
        &[("jk.class", "class 0021 jk java/lang/Object")],
        Loads,
    ),
];

/// A domain with a class that it keeps.
const OTHER_DOMAIN: &[Domain<'static>] = &[(
    "b",
    &[("Far.class", "class 0021 Far java/lang/Object")],
)];

/// Names of classes, where the name table has them and where it has not. `A` and the parent's name are the entries 1 to 4.
const NAMED: &[Case<'static>] = &[
    // Parents and interfaces of the folder, before and after it in the order of paths.
    (
        "of-the-folder",
        &[
            ("A.class", "class 0021 A Z B"),
            ("B.class", "class 0601 B java/lang/Object"),
            ("Z.class", "class 0021 Z java/lang/Exception"),
        ],
        Loads,
    ),
    (
        "missing-parent",
        &[("A.class", "class 0021 A Z")],
        At(Rule::C18, "A.class", 4),
    ),
    (
        "missing-interface",
        &[("A.class", "class 0021 A java/lang/Object jk/Remote Z")],
        At(Rule::C18, "A.class", 8),
    ),
    // Descriptors of fields and methods.
    (
        "missing-in-a-field",
        &[("A.class", "class 0021 A java/lang/Object|field 1 z LZ;")],
        At(Rule::C18, "A.class", 6),
    ),
    (
        "missing-in-an-array-field",
        &[("A.class", "class 0021 A java/lang/Object|field 1 z [[LZ;")],
        At(Rule::C18, "A.class", 6),
    ),
    (
        "missing-in-a-parameter",
        &[(
            "A.class",
            "class 0421 A java/lang/Object|method 0401 m (ILA;LZ;)V 0 0|end",
        )],
        At(Rule::C18, "A.class", 6),
    ),
    (
        "missing-in-a-result",
        &[(
            "A.class",
            "class 0421 A java/lang/Object|method 0401 m ()LZ; 0 0|end",
        )],
        At(Rule::C18, "A.class", 6),
    ),
    // The Class entry of an array, after `m`, `()V`, `Code` and its name.
    (
        "missing-in-an-array-entry",
        &[(
            "A.class",
            "class 0021 A java/lang/Object|method 0009 m ()V 1 0|sipush 1|anewarray [LZ;|pop|return|end",
        )],
        At(Rule::C18, "A.class", 9),
    ),
    // The descriptor of a reference, which comes before the pair; that no member is found is a later rule.
    (
        "missing-in-a-reference",
        &[(
            "A.class",
            "class 0021 A java/lang/Object|method 0009 m ()V 1 0|aconst_null|invokestatic A m (LZ;)V|return|end",
        )],
        At(Rule::C18, "A.class", 8),
    ),
    // What is caught, and what is thrown.
    (
        "missing-in-a-catch",
        &[(
            "A.class",
            "class 0021 A java/lang/Object|method 0009 m ()V 1 0|L: nop|M: return|N: pop|goto M|catch L M N Z|end",
        )],
        At(Rule::C18, "A.class", 9),
    ),
    (
        "missing-in-throws",
        &[(
            "A.class",
            "class 0421 A java/lang/Object|method 0401 m ()V 0 0 Z|end",
        )],
        At(Rule::C18, "A.class", 9),
    ),
    // The least entry of the first file, in the order of paths.
    (
        "first-entry-of-the-first-file",
        &[
            ("B.class", "class 0021 B Y"),
            (
                "A.class",
                "class 0021 A java/lang/Object|field 1 y LY;|field 1 z LZ;",
            ),
        ],
        At(Rule::C18, "A.class", 6),
    ),
    // A class of the library that isn't there, one of another domain, and one in another package.
    (
        "missing-system-class",
        &[(
            "A.class",
            "class 0021 A java/lang/Object java/lang/Runnable",
        )],
        At(Rule::C18, "A.class", 6),
    ),
    (
        "class-of-another-domain",
        &[("A.class", "class 0021 A Far")],
        At(Rule::C18, "A.class", 4),
    ),
    (
        "class-of-another-package",
        &[
            ("p/A.class", "class 0021 p/A B"),
            ("p/B.class", "class 0021 p/B java/lang/Object"),
        ],
        At(Rule::C18, "p/A.class", 4),
    ),
    // A class of the same name as one of another domain.
    (
        "same-name-in-another-domain",
        &[("Far.class", "class 0021 Far java/lang/Object")],
        Loads,
    ),
];

/// Parents and interfaces.
const HIERARCHIES: &[Case<'static>] = &[
    (
        "own-parent",
        &[("A.class", "class 0021 A A")],
        At(Rule::C19, "A.class", 0),
    ),
    (
        "ring-of-two",
        &[("A.class", "class 0021 A B"), ("B.class", "class 0021 B A")],
        At(Rule::C19, "A.class", 0),
    ),
    // A class below a ring is not on it.
    (
        "below-a-ring",
        &[
            ("A.class", "class 0021 A B"),
            ("B.class", "class 0021 B C"),
            ("C.class", "class 0021 C B"),
        ],
        At(Rule::C19, "B.class", 0),
    ),
    (
        "own-interface",
        &[("I.class", "class 0601 I java/lang/Object I")],
        At(Rule::C19, "I.class", 0),
    ),
    (
        "ring-of-interfaces",
        &[
            ("H.class", "class 0601 H java/lang/Object I"),
            ("I.class", "class 0601 I java/lang/Object jk/Remote J"),
            ("J.class", "class 0601 J java/lang/Object I"),
        ],
        At(Rule::C19, "I.class", 0),
    ),
    // A parent that is an interface, final, or closed.
    (
        "interface-as-parent",
        &[
            ("A.class", "class 0021 A I"),
            ("I.class", "class 0601 I java/lang/Object"),
        ],
        At(Rule::C19, "A.class", 0),
    ),
    (
        "final-parent",
        &[
            ("A.class", "class 0021 A F"),
            ("F.class", "class 0031 F java/lang/Object"),
        ],
        At(Rule::C19, "A.class", 0),
    ),
    (
        "abstract-closed-parent",
        &[("A.class", "class 0021 A jk/Capability")],
        At(Rule::C19, "A.class", 0),
    ),
    (
        "closed-parent",
        &[("A.class", "class 0021 A java/lang/StringBuffer")],
        At(Rule::C19, "A.class", 0),
    ),
    (
        "throwable-as-parent",
        &[("A.class", "class 0021 A java/lang/Throwable")],
        Loads,
    ),
    (
        "childless-throwable-as-parent",
        &[("A.class", "class 0021 A java/lang/ThreadDeath")],
        Loads,
    ),
    (
        "abstract-throwable-as-parent",
        &[("A.class", "class 0021 A java/lang/VirtualMachineError")],
        Loads,
    ),
    (
        "remote-as-parent",
        &[("A.class", "class 0021 A jk/Remote")],
        At(Rule::C19, "A.class", 0),
    ),
    // An interface's parent, and what is listed as an interface.
    (
        "parent-of-an-interface",
        &[
            ("B.class", "class 0021 B java/lang/Object"),
            ("I.class", "class 0601 I B"),
        ],
        At(Rule::C19, "I.class", 0),
    ),
    (
        "class-as-interface",
        &[
            ("A.class", "class 0021 A java/lang/Object B"),
            ("B.class", "class 0021 B java/lang/Object"),
        ],
        At(Rule::C19, "A.class", 0),
    ),
    (
        "object-as-interface",
        &[("A.class", "class 0021 A java/lang/Object java/lang/Object")],
        At(Rule::C19, "A.class", 0),
    ),
    (
        "system-interfaces",
        &[(
            "A.class",
            "class 0021 A java/lang/Object java/io/Serializable java/lang/Cloneable jk/Remote",
        )],
        Loads,
    ),
    // C18 in a later file comes before C19.
    (
        "missing-in-a-later-file",
        &[("A.class", "class 0021 A A"), ("B.class", "class 0021 B C")],
        At(Rule::C18, "B.class", 4),
    ),
];

#[test]
fn names_of_classes(rt: HostRuntime) -> Result<(), Fail> {
    let alloc = rt.alloc();
    expect_answers(&rt, alloc, &[], PATHS)?;
    expect_answers(&rt, alloc, OTHER_DOMAIN, NAMED)?;
    expect_answers(&rt, alloc, &[], HIERARCHIES)
}
