//! Folders whose methods have no typing, or are too large: C23 and C24.

use crate::cases::Wanted::{At, Loads};
use crate::cases::{Case, expect_answers};
use jk_model::Rule;
use std::test::Fail;

/// A class with a protected method, and one below it in another package.
const BASE: (&str, &str) = (
    "p/Base.class",
    "class 0021 p/Base java/lang/Object|method 0001 <init> ()V 1 1|aload 0|invokespecial java/lang/Object <init> ()V|return|end\
    |method 0004 step ()V 0 1|return|end",
);

const SUB: (&str, &str) = (
    "q/Sub.class",
    "class 0021 q/Sub p/Base|method 0001 run ()V 1 1|aload 0|invokevirtual q/Sub step ()V|return|end",
);

const TYPED: &[Case<'static>] = &[
    // Siblings meet in their parent.
    (
        "siblings-meet",
        &[
            BASE,
            ("p/L.class", "class 0021 p/L p/Base"),
            ("p/R.class", "class 0021 p/R p/Base"),
            (
                "p/Join.class",
                "class 0021 p/Join java/lang/Object|method 0009 m (ILp/L;Lp/R;)V 1 3|iload 0|ifeq other|aload 1|goto both\
                |other: aload 2|both: invokevirtual p/Base step ()V|return|end",
            ),
        ],
        Loads,
    ),
    // An int and a text meet.
    (
        "int-and-text-meet",
        &[(
            "Bad.class",
            "class 0021 Bad java/lang/Object|method 0009 n ()V 0 0|return|end\
            |method 0009 m (I)V 1 1|iload 0|ifeq other|sipush 1|goto both|other: ldc_w text \"one\"|both: return|end",
        )],
        At(Rule::C23, "Bad.class", 2),
    ),
    // A protected method of a parent in another package, at itself and at an argument of the parent's type.
    ("protected-at-itself", &[BASE, SUB], Loads),
    (
        "protected-at-its-parent",
        &[
            BASE,
            SUB,
            (
                "q/Bad.class",
                "class 0021 q/Bad p/Base|method 0001 m (Lp/Base;)V 1 2|aload 1|invokevirtual p/Base step ()V|return|end",
            ),
        ],
        At(Rule::C23, "q/Bad.class", 1),
    ),
    // A constructor that stores into a field of its own class before it calls its parent's, and one that calls none.
    (
        "field-before-the-constructor",
        &[(
            "In.class",
            "class 0021 In java/lang/Object|field 1010 this$0 LIn;|method 0001 <init> (LIn;)V 2 2|aload 0|aload 1\
            |putfield In this$0 LIn;|aload 0|invokespecial java/lang/Object <init> ()V|return|end",
        )],
        Loads,
    ),
    (
        "no-constructor-called",
        &[(
            "Bad.class",
            "class 0021 Bad java/lang/Object|method 0001 <init> ()V 1 1|return|end",
        )],
        At(Rule::C23, "Bad.class", 1),
    ),
    // Of two files the first, and in it the first method, behind the fields.
    (
        "first-method-of-the-first-file",
        &[
            (
                "B.class",
                "class 0021 B java/lang/Object|method 0009 m ()V 1 0|pop|return|end",
            ),
            (
                "A.class",
                "class 0021 A java/lang/Object|field 1 a I|field 1 b I|method 0009 l ()V 1 0|return|end\
                |method 0009 m ()V 1 0|pop|return|end|method 0009 n ()V 1 0|pop|return|end",
            ),
        ],
        At(Rule::C23, "A.class", 4),
    ),
    // An interface's initialiser is code too, and an abstract method is none.
    (
        "initialiser-of-an-interface",
        &[(
            "I.class",
            "class 0601 I java/lang/Object|method 0401 m ()V 0 0|end|method 0008 <clinit> ()V 1 0|pop|return|end",
        )],
        At(Rule::C23, "I.class", 2),
    ),
];

/// Methods of many locals, of which they use a few.
const FAR_LOCALS: &[Case<'static>] = &[
    (
        "parameters-and-the-last-locals",
        &[(
            "A.class",
            "class 0021 A java/lang/Object|method 0009 m (JI)V 2 65535|lload 0|lstore 65533|lload 65533|lstore 300|lload 300|pop2|iload 2|pop|return|end",
        )],
        Loads,
    ),
    (
        "local-that-nothing-stores",
        &[(
            "A.class",
            "class 0021 A java/lang/Object|method 0009 m (JI)V 2 65535|iload 2000|pop|return|end",
        )],
        At(Rule::C23, "A.class", 1),
    ),
    // An instruction that counts a local reads it.
    (
        "far-local-is-counted",
        &[(
            "A.class",
            "class 0021 A java/lang/Object|method 0009 m (JI)V 2 65535|iload 2|istore 2000|iinc 2000 1|iload 2000|pop|return|end",
        )],
        Loads,
    ),
    (
        "counted-and-never-stored",
        &[(
            "A.class",
            "class 0021 A java/lang/Object|method 0009 m (JI)V 2 65535|iinc 2000 1|return|end",
        )],
        At(Rule::C23, "A.class", 1),
    ),
    // A long loses its second half, or its first one.
    (
        "second-half-is-stored-over",
        &[(
            "A.class",
            "class 0021 A java/lang/Object|method 0009 m (JI)V 2 65535|lload 0|lstore 1000|iload 2|istore 1001|lload 1000|pop2|return|end",
        )],
        At(Rule::C23, "A.class", 1),
    ),
    (
        "first-half-is-stored-over",
        &[(
            "A.class",
            "class 0021 A java/lang/Object|method 0009 m (JI)V 2 65535|lload 0|lstore 1000|lload 0|lstore 999|lload 1000|pop2|return|end",
        )],
        At(Rule::C23, "A.class", 1),
    ),
    (
        "beside-a-long",
        &[(
            "A.class",
            "class 0021 A java/lang/Object|method 0009 m (JI)V 2 65535|lload 0|lstore 1000|iload 2|istore 999|iload 2|istore 1002|lload 1000|pop2|return|end",
        )],
        Loads,
    ),
    // An int is stored on both paths, and on one.
    (
        "stored-on-both-paths",
        &[(
            "A.class",
            "class 0021 A java/lang/Object|method 0009 m (JI)V 2 65535|iload 2|ifeq other|iload 2|istore 2000|goto both\
            |other: iload 2|istore 2000|both: iload 2000|pop|return|end",
        )],
        Loads,
    ),
    (
        "stored-on-one-path",
        &[(
            "A.class",
            "class 0021 A java/lang/Object|method 0009 m (JI)V 2 65535|iload 2|ifeq both|iload 2|istore 2000|both: iload 2000|pop|return|end",
        )],
        At(Rule::C23, "A.class", 1),
    ),
];

/// A method with 32 instructions and 131,070 slots: 4,194,240 in all. The limit is 4,194,304.
const MOST: &str =
    "class 0021 A java/lang/Object|field 1 a I|method 0009 m ()V 65535 65535|nop|nop|nop|nop|nop|nop|nop|nop|nop|nop|nop|nop\
    |nop|nop|nop|nop|nop|nop|nop|nop|nop|nop|nop|nop|nop|nop|nop|nop|nop|nop|nop|return|end";

/// The same with an instruction more: 4,325,310.
const MORE: &str =
    "class 0021 A java/lang/Object|field 1 a I|method 0009 m ()V 65535 65535|nop|nop|nop|nop|nop|nop|nop|nop|nop|nop|nop|nop\
    |nop|nop|nop|nop|nop|nop|nop|nop|nop|nop|nop|nop|nop|nop|nop|nop|nop|nop|nop|nop|return|end";

const LARGE: &[Case<'static>] = &[
    ("as-large-as-may-be", &[("A.class", MOST)], Loads),
    (
        "one-instruction-more",
        &[("A.class", MORE)],
        At(Rule::C24, "A.class", 2),
    ),
];

#[test]
fn typings_of_methods(rt: HostRuntime) -> Result<(), Fail> {
    let alloc = rt.alloc();
    expect_answers(&rt, alloc, &[], TYPED)?;
    expect_answers(&rt, alloc, &[], FAR_LOCALS)?;
    expect_answers(&rt, alloc, &[], LARGE)
}
