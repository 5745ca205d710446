//! Folders whose classes name members of others: C20, C21 and C22.

use crate::cases::Wanted::{At, Loads};
use crate::cases::{Case, expect_answers};
use crate::worlds::Domain;
use jk_model::Rule;
use std::test::Fail;

/// Public classes and members, among them an interface I with a constant and a method, a class B that implements it, and D below B.
/// Packages are left out where it doesn't matter.
const I: (&str, &str) = (
    "I.class",
    "class 0601 I java/lang/Object|field 0019 TOP I 7|method 0401 run ()V 0 0|end",
);

const B: (&str, &str) = (
    "B.class",
    "class 0421 B java/lang/Object I|field 0001 size I|field 0009 count I\
    |method 0001 <init> ()V 1 1|aload 0|invokespecial java/lang/Object <init> ()V|return|end\
    |method 0001 <init> (I)V 1 2|aload 0|invokespecial java/lang/Object <init> ()V|return|end\
    |method 0001 grow (I)V 0 2|return|end\
    |method 0009 sum (II)I 1 2|sipush 0|ireturn|end\
    |method 0401 wait ()V 0 0|end",
);

const D: (&str, &str) = (
    "D.class",
    "class 0021 D B|method 0001 <init> ()V 1 1|aload 0|invokespecial B <init> ()V|return|end\
    |method 0001 run ()V 0 1|return|end\
    |method 0001 wait ()V 0 1|return|end",
);

/// References in the code of the one method of a class without fields: the entries 5 to 7 are `m`, its descriptor and `Code`.
const NAMED: &[Case<'static>] = &[
    ("no-references", &[I, B, D], Loads),
    // Fields and methods of the class itself, above it, and of its interfaces.
    (
        "members-here-and-above",
        &[
            I,
            B,
            D,
            (
                "U.class",
                "class 0021 U java/lang/Object|method 0009 m (LD;LI;)V 3 2|getstatic I TOP I|pop|getstatic B TOP I|pop\
                |getstatic D TOP I|pop|getstatic D count I|putstatic B count I|aload 0|getfield D size I|pop\
                |aload 0|sipush 1|putfield B size I|aload 0|sipush 1|invokevirtual D grow (I)V|aload 0|invokevirtual B run ()V\
                |aload 1|invokeinterface I run ()V|aload 1|aload 0|invokeinterface I equals (Ljava/lang/Object;)Z|pop\
                |sipush 1|sipush 2|invokestatic D sum (II)I|pop|aload 0|aload 1|invokevirtual D equals (Ljava/lang/Object;)Z|pop\
                |return|end",
            ),
        ],
        Loads,
    ),
    // Constructors are looked for in the parents too.
    (
        "constructor-of-a-parent",
        &[
            I,
            B,
            D,
            (
                "U.class",
                "class 0021 U java/lang/Object|method 0009 m ()V 3 0|new D|dup|sipush 1|invokespecial D <init> (I)V|pop|return|end",
            ),
        ],
        Loads,
    ),
    // No field of the name, of the type, or in the class. In the third the class's name is the type's text too.
    (
        "no-field-of-the-name",
        &[
            I,
            B,
            (
                "U.class",
                "class 0021 U java/lang/Object|method 0009 m ()V 2 0|getstatic B total I|pop|return|end",
            ),
        ],
        At(Rule::C20, "U.class", 13),
    ),
    (
        "no-field-of-the-type",
        &[
            I,
            B,
            (
                "U.class",
                "class 0021 U java/lang/Object|method 0009 m ()V 2 0|getstatic B count J|pop2|return|end",
            ),
        ],
        At(Rule::C20, "U.class", 13),
    ),
    (
        "no-field-in-the-interface",
        &[
            I,
            B,
            (
                "U.class",
                "class 0021 U java/lang/Object|method 0009 m ()V 2 0|getstatic I count I|pop|return|end",
            ),
        ],
        At(Rule::C20, "U.class", 12),
    ),
    // No method of the name, of the parameters, or of the result.
    (
        "no-method-of-the-name",
        &[
            I,
            B,
            (
                "U.class",
                "class 0021 U java/lang/Object|method 0009 m ()V 2 0|sipush 0|sipush 0|invokestatic B add (II)I|pop|return|end",
            ),
        ],
        At(Rule::C20, "U.class", 13),
    ),
    (
        "no-method-of-the-parameters",
        &[
            I,
            B,
            (
                "U.class",
                "class 0021 U java/lang/Object|method 0009 m ()V 2 0|sipush 0|invokestatic B sum (I)I|pop|return|end",
            ),
        ],
        At(Rule::C20, "U.class", 13),
    ),
    (
        "no-method-of-the-result",
        &[
            I,
            B,
            (
                "U.class",
                "class 0021 U java/lang/Object|method 0009 m ()V 2 0|sipush 0|sipush 0|invokestatic B sum (II)V|return|end",
            ),
        ],
        At(Rule::C20, "U.class", 13),
    ),
    // A MethodRef of an interface or an array, and an InterfaceMethodRef of a class. The method of U takes an argument.
    (
        "method-ref-of-an-interface",
        &[
            I,
            (
                "U.class",
                "class 0021 U java/lang/Object|method 0009 m (LI;)V 1 1|aload 0|invokevirtual I run ()V|return|end",
            ),
        ],
        At(Rule::C20, "U.class", 13),
    ),
    (
        "method-ref-of-an-array",
        &[(
            "U.class",
            "class 0021 U java/lang/Object|method 0009 m ([I)V 2 1|aload 0|aload 0|invokevirtual [I equals (Ljava/lang/Object;)Z\
            |pop|return|end",
        )],
        At(Rule::C20, "U.class", 13),
    ),
    (
        "interface-method-ref-of-a-class",
        &[
            I,
            B,
            D,
            (
                "U.class",
                "class 0021 U java/lang/Object|method 0009 m (LD;)V 1 1|aload 0|invokeinterface D run ()V|return|end",
            ),
        ],
        At(Rule::C20, "U.class", 13),
    ),
    // A static member where an instruction needs an instance's, and the reverse: the number of the method.
    (
        "getfield-of-a-static",
        &[
            I,
            B,
            (
                "U.class",
                "class 0021 U java/lang/Object|field 1 a I|method 0009 m (LB;)V 1 1|aload 0|getfield B count I|pop|return|end",
            ),
        ],
        At(Rule::C20, "U.class", 2),
    ),
    (
        "putstatic-of-an-instance-field",
        &[
            I,
            B,
            (
                "U.class",
                "class 0021 U java/lang/Object|field 1 a I|method 0009 m ()V 1 1|sipush 1|putstatic B size I|return|end",
            ),
        ],
        At(Rule::C20, "U.class", 2),
    ),
    (
        "invokestatic-of-an-instance-one",
        &[
            I,
            B,
            (
                "U.class",
                "class 0021 U java/lang/Object|field 1 a I|method 0009 m ()V 1 1|sipush 1|invokestatic B grow (I)V|return|end",
            ),
        ],
        At(Rule::C20, "U.class", 2),
    ),
    (
        "invokevirtual-of-a-static",
        &[
            I,
            B,
            (
                "U.class",
                "class 0021 U java/lang/Object|method 0009 n ()V 0 0|return|end\
                |method 0009 m (LB;)V 3 1|aload 0|sipush 1|sipush 1|invokevirtual B sum (II)I|pop|return|end",
            ),
        ],
        At(Rule::C20, "U.class", 2),
    ),
    // invokespecial of an abstract method.
    (
        "invokespecial-of-an-abstract-one",
        &[
            I,
            B,
            (
                "U.class",
                "class 0421 U B|method 0001 wait ()V 1 1|aload 0|invokespecial B wait ()V|return|end",
            ),
        ],
        At(Rule::C20, "U.class", 1),
    ),
    // A method's number comes before the index of an entry: 25 fields share ten texts, so that the reference that finds
    // nothing is the entry 20, and the method that finds a static field the member 26.
    (
        "member-before-entry",
        &[
            I,
            B,
            (
                "U.class",
                "class 0021 U java/lang/Object|field 1 a I|field 1 a J|field 1 a S|field 1 a B|field 1 a Z\
                |field 1 b I|field 1 b J|field 1 b S|field 1 b B|field 1 b Z\
                |field 1 c I|field 1 c J|field 1 c S|field 1 c B|field 1 c Z|field 1 d I|field 1 d J|field 1 d S|field 1 d B|field 1 d Z\
                |field 1 e I|field 1 e J|field 1 e S|field 1 e B|field 1 e Z\
                |method 0009 m (LB;)V 1 1|getstatic U aa I|pop|aload 0|getfield B count I|pop|return|end",
            ),
        ],
        At(Rule::C20, "U.class", 26),
    ),
];

/// A package p with a class and members of each kind of access.
const OPEN: (&str, &str) = (
    "p/Open.class",
    "class 0021 p/Open java/lang/Object|field 0001 all I|field 0004 below I|field 0000 near I|field 0002 own I|field 0011 last I\
    |method 0001 <init> ()V 1 1|aload 0|invokespecial java/lang/Object <init> ()V|return|end\
    |method 0009 all ()V 0 0|return|end\
    |method 000c below ()V 0 0|return|end\
    |method 0008 near ()V 0 0|return|end\
    |method 000a own ()V 0 0|return|end",
);

/// A class that is known in its package alone.
const SHUT: (&str, &str) = (
    "p/Shut.class",
    "class 0020 p/Shut java/lang/Object|method 0009 all ()V 0 0|return|end",
);

/// Which classes and members may be accessed. The class that asks has no fields and one method `m`; the entries 5 to 7 are its name,
/// its descriptor and `Code`.
const ACCESS: &[Case<'static>] = &[
    // All but what is private from the same package.
    (
        "from-the-same-package",
        &[
            OPEN,
            SHUT,
            (
                "p/U.class",
                "class 0021 p/U java/lang/Object|method 0009 m (Lp/Open;)V 1 1|invokestatic p/Open all ()V|invokestatic p/Open below ()V\
                |invokestatic p/Open near ()V|invokestatic p/Shut all ()V|aload 0|getfield p/Open near I|pop|aload 0\
                |getfield p/Open below I|pop|return|end",
            ),
        ],
        Loads,
    ),
    (
        "private-method",
        &[
            OPEN,
            (
                "p/U.class",
                "class 0021 p/U java/lang/Object|method 0009 m ()V 1 1|invokestatic p/Open own ()V|return|end",
            ),
        ],
        At(Rule::C21, "p/U.class", 12),
    ),
    (
        "private-field",
        &[
            OPEN,
            (
                "p/U.class",
                "class 0021 p/U java/lang/Object|method 0009 m (Lp/Open;)V 1 1|aload 0|getfield p/Open own I|pop|return|end",
            ),
        ],
        At(Rule::C21, "p/U.class", 13),
    ),
    // From another package what is public, and what is protected from below.
    (
        "from-below",
        &[
            OPEN,
            (
                "q/U.class",
                "class 0021 q/U p/Open|method 0009 m (Lq/U;)V 1 1|invokestatic p/Open all ()V|invokestatic q/U below ()V\
                |aload 0|getfield p/Open below I|pop|aload 0|getfield p/Open all I|pop|return|end",
            ),
        ],
        Loads,
    ),
    (
        "protected-from-elsewhere",
        &[
            OPEN,
            (
                "q/U.class",
                "class 0021 q/U java/lang/Object|method 0009 m ()V 1 1|invokestatic p/Open below ()V|return|end",
            ),
        ],
        At(Rule::C21, "q/U.class", 12),
    ),
    (
        "near-from-below",
        &[
            OPEN,
            (
                "q/U.class",
                "class 0021 q/U p/Open|method 0009 m ()V 1 1|invokestatic p/Open near ()V|return|end",
            ),
        ],
        At(Rule::C21, "q/U.class", 10),
    ),
    // A class of another package: its Class entry, also of an array of it; no entry, where a descriptor alone names it.
    (
        "class-of-another-package",
        &[
            SHUT,
            (
                "q/U.class",
                "class 0021 q/U java/lang/Object|method 0009 m ()V 1 1|invokestatic p/Shut all ()V|return|end",
            ),
        ],
        At(Rule::C21, "q/U.class", 9),
    ),
    (
        "array-of-that-class",
        &[
            SHUT,
            (
                "q/U.class",
                "class 0021 q/U java/lang/Object|method 0009 m ()V 1 1|sipush 1|anewarray [Lp/Shut;|pop|return|end",
            ),
        ],
        At(Rule::C21, "q/U.class", 9),
    ),
    (
        "parent-of-another-package",
        &[SHUT, ("q/U.class", "class 0021 q/U p/Shut")],
        At(Rule::C21, "q/U.class", 4),
    ),
    (
        "class-in-a-descriptor-alone",
        &[
            SHUT,
            (
                "q/U.class",
                "class 0021 q/U java/lang/Object|field 1 s Lp/Shut;",
            ),
        ],
        Loads,
    ),
    // A package of the same beginning is another one.
    (
        "package-that-begins-alike",
        &[SHUT, ("p/p/U.class", "class 0021 p/p/U p/Shut")],
        At(Rule::C21, "p/p/U.class", 4),
    ),
    // A member is found first, whatever its access is: the private one hides the one above.
    (
        "private-one-hides-a-public-one",
        &[
            OPEN,
            (
                "p/V.class",
                "class 0021 p/V p/Open|method 000a all ()V 0 0|return|end",
            ),
            (
                "p/U.class",
                "class 0021 p/U java/lang/Object|method 0009 m ()V 1 1|invokestatic p/V all ()V|return|end",
            ),
        ],
        At(Rule::C21, "p/U.class", 12),
    ),
    // A final field is put outside of its class, also below it: the number of the method.
    (
        "final-field-put-below",
        &[
            OPEN,
            (
                "p/U.class",
                "class 0021 p/U p/Open|field 1 a I|method 0009 m (Lp/Open;)V 2 1|aload 0|sipush 1|putfield p/Open last I|return|end",
            ),
        ],
        At(Rule::C21, "p/U.class", 2),
    ),
    (
        "final-field-put-at-home",
        &[(
            "U.class",
            "class 0021 U java/lang/Object|field 0019 a I|field 0011 b I|method 0009 m (LU;)V 2 1|sipush 1|putstatic U a I\
            |aload 0|sipush 1|putfield U b I|return|end",
        )],
        Loads,
    ),
    // What `new` may not make: an interface, an abstract class, and a closed one without a constructor.
    (
        "new-of-an-interface",
        &[
            I,
            (
                "U.class",
                "class 0021 U java/lang/Object|method 0009 m ()V 1 0|new I|pop|return|end",
            ),
        ],
        At(Rule::C21, "U.class", 1),
    ),
    (
        "new-of-an-abstract-class",
        &[
            I,
            B,
            (
                "U.class",
                "class 0021 U java/lang/Object|method 0009 n ()V 1 0|return|end|method 0009 m ()V 1 0|new B|pop|return|end",
            ),
        ],
        At(Rule::C21, "U.class", 2),
    ),
    (
        "new-of-an-abstract-throwable",
        &[(
            "U.class",
            "class 0021 U java/lang/Object|method 0009 m ()V 1 0|new java/lang/VirtualMachineError|pop|return|end",
        )],
        At(Rule::C21, "U.class", 1),
    ),
    (
        "new-of-a-text",
        &[(
            "U.class",
            "class 0021 U java/lang/Object|method 0009 m ()V 1 0|new java/lang/String|pop|return|end",
        )],
        At(Rule::C21, "U.class", 1),
    ),
    (
        "new-of-system-classes",
        &[(
            "U.class",
            "class 0021 U java/lang/Object|method 0009 m ()V 2 0|new java/lang/StringBuffer|dup\
            |invokespecial java/lang/StringBuffer <init> ()V|pop|new java/lang/Object|dup|invokespecial java/lang/Object <init> ()V|pop\
            |new jk/RevokedException|dup|invokespecial jk/RevokedException <init> ()V|pop|return|end",
        )],
        Loads,
    ),
];

const PARENT: (&str, &str) = (
    "p/P.class",
    "class 0021 p/P java/lang/Object|method 0011 all ()V 0 1|return|end|method 0014 below ()V 0 1|return|end\
        |method 0010 near ()V 0 1|return|end|method 0012 own ()V 0 1|return|end|method 0001 free ()V 0 1|return|end",
);

/// Final methods, and methods of the same name below them.
const FINALS: &[Case<'static>] = &[
    // Another descriptor, a method that isn't final, one that is private, and one of another package's own.
    (
        "nothing-overridden",
        &[
            PARENT,
            (
                "q/C.class",
                "class 0021 q/C p/P|method 0001 all (I)V 0 2|return|end|method 0001 free ()V 0 1|return|end\
                |method 0001 own ()V 0 1|return|end|method 0001 near ()V 0 1|return|end",
            ),
        ],
        Loads,
    ),
    (
        "public-one",
        &[
            PARENT,
            (
                "q/C.class",
                "class 0021 q/C p/P|field 1 a I|method 0001 all ()V 0 1|return|end",
            ),
        ],
        At(Rule::C22, "q/C.class", 2),
    ),
    (
        "protected-one",
        &[
            PARENT,
            (
                "q/C.class",
                "class 0021 q/C p/P|method 0001 below ()V 0 1|return|end",
            ),
        ],
        At(Rule::C22, "q/C.class", 1),
    ),
    (
        "near-one-in-its-package",
        &[
            PARENT,
            (
                "p/C.class",
                "class 0021 p/C p/P|method 0001 near ()V 0 1|return|end",
            ),
        ],
        At(Rule::C22, "p/C.class", 1),
    ),
    // The lower one is static, or private.
    (
        "by-a-static-one",
        &[
            PARENT,
            (
                "q/C.class",
                "class 0021 q/C p/P|method 0009 all ()V 0 0|return|end",
            ),
        ],
        At(Rule::C22, "q/C.class", 1),
    ),
    (
        "by-a-private-one",
        &[
            PARENT,
            (
                "q/C.class",
                "class 0021 q/C p/P|method 0002 all ()V 0 1|return|end",
            ),
        ],
        At(Rule::C22, "q/C.class", 1),
    ),
    // Two classes below, over one of another package.
    (
        "near-one-past-another-package",
        &[
            PARENT,
            ("q/C.class", "class 0021 q/C p/P"),
            (
                "p/E.class",
                "class 0021 p/E q/C|method 0001 near ()V 0 1|return|end",
            ),
        ],
        At(Rule::C22, "p/E.class", 1),
    ),
    // The second method is the first that breaks the rule.
    (
        "first-of-two",
        &[
            PARENT,
            (
                "q/C.class",
                "class 0021 q/C p/P|method 0001 free ()V 0 1|return|end|method 0001 below ()V 0 1|return|end\
                |method 0001 all ()V 0 1|return|end",
            ),
        ],
        At(Rule::C22, "q/C.class", 2),
    ),
];

const OTHER_DOMAIN: &[Domain<'static>] = &[("o", &[PARENT, ("resolver.txt", "share p/P")])];

const IMPORT: (&str, &str) = ("resolver.txt", "import o p/P");

/// A class of the folder below the imported one, with a final method of its own.
const BETWEEN: (&str, &str) = (
    "q/C.class",
    "class 0021 q/C p/P|method 0011 more ()V 0 1|return|end",
);

/// The final methods of an imported class, and methods of the same name in a folder's classes below it.
const IMPORTED_FINALS: &[Case<'static>] = &[
    (
        "below-an-imported-class",
        &[
            IMPORT,
            (
                "q/C.class",
                "class 0021 q/C p/P|method 0001 free ()V 0 1|return|end|method 0001 all ()V 0 1|return|end",
            ),
        ],
        At(Rule::C22, "q/C.class", 2),
    ),
    // The package is the other domain's.
    (
        "near-one-of-another-home",
        &[
            IMPORT,
            (
                "p/C.class",
                "class 0021 p/C p/P|method 0001 near ()V 0 1|return|end",
            ),
        ],
        Loads,
    ),
    // One of the imported class comes before one of the folder's own class, and after it.
    (
        "imported-one-first",
        &[
            IMPORT,
            BETWEEN,
            (
                "q/E.class",
                "class 0021 q/E q/C|method 0001 free ()V 0 1|return|end|method 0001 below ()V 0 1|return|end\
                |method 0001 more ()V 0 1|return|end",
            ),
        ],
        At(Rule::C22, "q/E.class", 2),
    ),
    (
        "own-one-first",
        &[
            IMPORT,
            BETWEEN,
            (
                "q/E.class",
                "class 0021 q/E q/C|method 0001 more ()V 0 1|return|end|method 0001 all ()V 0 1|return|end",
            ),
        ],
        At(Rule::C22, "q/E.class", 1),
    ),
];

#[test]
fn members_of_classes(rt: HostRuntime) -> Result<(), Fail> {
    let alloc = rt.alloc();
    expect_answers(&rt, alloc, &[], NAMED)?;
    expect_answers(&rt, alloc, &[], ACCESS)?;
    expect_answers(&rt, alloc, &[], FINALS)?;
    expect_answers(&rt, alloc, OTHER_DOMAIN, IMPORTED_FINALS)
}
