//! Folders with a `resolver.txt`: L6, L7, and packages of two domains.

use crate::cases::Wanted::{At, Loads};
use crate::cases::{Case, expect_answers};
use crate::worlds::Domain;
use jk_model::Rule;
use std::test::Fail;

const BOX: (&str, &str) = ("Box.class", "class 0021 Box java/lang/Object");

/// Lines outside the grammar, and shares of classes without a file.
const LINES: &[Case<'static>] = &[
    (
        "blanks-and-line-ends",
        &[
            BOX,
            (
                "resolver.txt",
                "# nothing||share Box| \tshare\tBox  a_-9 \r|",
            ),
        ],
        Loads,
    ),
    (
        "share-of-nothing",
        &[BOX, ("resolver.txt", "share")],
        At(Rule::L6, "resolver.txt", 1),
    ),
    (
        "share-with-two",
        &[BOX, ("resolver.txt", "share Box||#|share Box a b")],
        At(Rule::L6, "resolver.txt", 4),
    ),
    (
        "dot-in-a-domain",
        &[BOX, ("resolver.txt", "share Box a.b")],
        At(Rule::L6, "resolver.txt", 1),
    ),
    (
        "other-case-of-a-word",
        &[BOX, ("resolver.txt", "share Box|Share Box")],
        At(Rule::L6, "resolver.txt", 2),
    ),
    (
        "import-of-nothing",
        &[BOX, ("resolver.txt", "share Box|import b")],
        At(Rule::L6, "resolver.txt", 2),
    ),
    (
        "byte-outside-ascii",
        &[BOX, ("resolver.txt", "# \u{e9}|share")],
        At(Rule::L6, "resolver.txt", 1),
    ),
    (
        "class-with-its-ending",
        &[BOX, ("resolver.txt", "share Box.class")],
        At(Rule::L6, "resolver.txt", 1),
    ),
    (
        "class-without-a-file",
        &[BOX, ("resolver.txt", "share Box|share p/Box")],
        At(Rule::L6, "resolver.txt", 2),
    ),
    (
        "share-of-a-system-class",
        &[BOX, ("resolver.txt", "share java/lang/Object")],
        At(Rule::L6, "resolver.txt", 1),
    ),
    (
        "class-in-a-package",
        &[
            ("p/Box.class", "class 0021 p/Box java/lang/Object"),
            ("resolver.txt", "share p/Box"),
        ],
        Loads,
    ),
    (
        "other-ending",
        &[("Box.txt", "a box"), ("resolver.txt", "share Box")],
        At(Rule::L6, "resolver.txt", 1),
    ),
    (
        "later-line",
        &[("resolver.txt", "share Box|share"), BOX],
        At(Rule::L6, "resolver.txt", 2),
    ),
    // The file is enough: that it breaks a rule itself comes later.
    (
        "class-that-breaks-a-rule",
        &[
            ("Box.class", "class 0431 Box java/lang/Object"),
            ("resolver.txt", "share Box|share"),
        ],
        At(Rule::L6, "resolver.txt", 2),
    ),
    // L6 in a later line comes before L7 in an earlier one.
    (
        "grammar-before-imports",
        &[BOX, ("resolver.txt", "import b Box|share Bag")],
        At(Rule::L6, "resolver.txt", 2),
    ),
];

/// `b` offers Box, which leads to Node, to all, Bag to `a` alone, and keeps Own. `c` has a Box of its own.
pub(crate) const OFFERING: &[Domain<'static>] = &[
    (
        "b",
        &[
            ("Bag.class", "class 0021 Bag java/lang/Object"),
            (
                "Box.class",
                "class 0021 Box java/lang/Object|field 1 n [LNode;",
            ),
            (
                "Node.class",
                "class 0021 Node java/lang/Object|field 1 n LNode;",
            ),
            ("Own.class", "class 0021 Own java/lang/Object"),
            (
                "resolver.txt",
                "share Box|share Node|share Bag offered-to-this-one",
            ),
        ],
    ),
    (
        "c",
        &[
            ("Box.class", "class 0021 Box java/lang/Object"),
            ("resolver.txt", "share Box"),
        ],
    ),
];

/// Imports of what is offered, and of what isn't.
const IMPORTS: &[Case<'static>] = &[
    (
        "imported-twice",
        &[
            ("My.class", "class 0021 My Box|field 1 n LNode;"),
            ("resolver.txt", "import b Box|import b Box|import b Node"),
        ],
        Loads,
    ),
    // The domain of this name alone.
    (
        "offered-to-this-one",
        &[("resolver.txt", "import b Bag")],
        Loads,
    ),
    (
        "offered-to-another",
        &[("resolver.txt", "import b Box|import b Bag")],
        At(Rule::L7, "resolver.txt", 2),
    ),
    (
        "kept",
        &[("resolver.txt", "#|import b Own")],
        At(Rule::L7, "resolver.txt", 2),
    ),
    (
        "no-such-class",
        &[("resolver.txt", "import b Other")],
        At(Rule::L7, "resolver.txt", 1),
    ),
    (
        "system-class",
        &[("resolver.txt", "import b java/lang/Object")],
        At(Rule::L7, "resolver.txt", 1),
    ),
    (
        "no-such-domain",
        &[BOX, ("resolver.txt", "share Box|import a Box")],
        At(Rule::L7, "resolver.txt", 2),
    ),
    // The domain that is loaded isn't live yet.
    (
        "of-itself",
        &[BOX, ("resolver.txt", "share Box|import of-itself Box")],
        At(Rule::L7, "resolver.txt", 2),
    ),
    // A name that a class file of the folder has, though the import only reaches it.
    (
        "name-of-a-file",
        &[BOX, ("resolver.txt", "import b Box")],
        At(Rule::L7, "resolver.txt", 1),
    ),
    (
        "reached-name-of-a-file",
        &[
            ("Node.class", "class 0431 Node java/lang/Object"),
            ("resolver.txt", "|import b Box"),
        ],
        At(Rule::L7, "resolver.txt", 2),
    ),
    // A name that an earlier import gives to another class.
    (
        "two-of-a-name",
        &[("resolver.txt", "import b Box|import c Box")],
        At(Rule::L7, "resolver.txt", 2),
    ),
    (
        "reached-two-of-a-name",
        &[("resolver.txt", "import c Box|import b Node|import b Box")],
        At(Rule::L7, "resolver.txt", 3),
    ),
    // A class that is reached is known too, one that isn't is not, and neither is what the domain only has.
    (
        "reached",
        &[
            ("My.class", "class 0021 My Node"),
            ("resolver.txt", "import b Box"),
        ],
        Loads,
    ),
    (
        "not-reached",
        &[
            ("My.class", "class 0021 My Box"),
            ("resolver.txt", "import b Node"),
        ],
        At(Rule::C18, "My.class", 4),
    ),
    // The rules on class files come after L7.
    (
        "imports-before-classes",
        &[
            ("A.class", "class 0431 A java/lang/Object"),
            ("resolver.txt", "import b Own"),
        ],
        At(Rule::L7, "resolver.txt", 1),
    ),
];

/// A domain with a package p, whose classes are offered to all.
const SAME_PACKAGE: &[Domain<'static>] = &[(
    "b",
    &[
        ("p/Near.class", "class 0020 p/Near java/lang/Object"),
        (
            "p/Box.class",
            "class 0021 p/Box java/lang/Object|method 0009 all ()V 0 0|return|end|method 0008 near ()V 0 0|return|end\
            |method 0010 last ()V 0 1|return|end",
        ),
        ("resolver.txt", "share p/Box|share p/Near"),
    ],
)];

/// Packages of two domains of the same name are two.
const PACKAGES: &[Case<'static>] = &[
    (
        "public-in-the-other",
        &[
            (
                "p/U.class",
                "class 0021 p/U java/lang/Object|method 0009 m ()V 0 0|invokestatic p/Box all ()V|return|end",
            ),
            ("resolver.txt", "import b p/Box"),
        ],
        Loads,
    ),
    (
        "near-in-the-other",
        &[
            (
                "p/U.class",
                "class 0021 p/U java/lang/Object|method 0009 m ()V 0 0|invokestatic p/Box near ()V|return|end",
            ),
            ("resolver.txt", "import b p/Box"),
        ],
        At(Rule::C21, "p/U.class", 12),
    ),
    (
        "class-near-in-the-other",
        &[
            ("p/U.class", "class 0021 p/U p/Near"),
            ("resolver.txt", "import b p/Near"),
        ],
        At(Rule::C21, "p/U.class", 4),
    ),
    // A final method of the other package's own is not overridden.
    (
        "final-near-in-the-other",
        &[
            (
                "p/U.class",
                "class 0021 p/U p/Box|method 0001 last ()V 0 1|return|end",
            ),
            ("resolver.txt", "import b p/Box"),
        ],
        Loads,
    ),
];

#[test]
fn lines_of_resolvers(rt: HostRuntime) -> Result<(), Fail> {
    let alloc = rt.alloc();
    expect_answers(&rt, alloc, &[], LINES)?;
    expect_answers(&rt, alloc, OFFERING, IMPORTS)?;
    expect_answers(&rt, alloc, SAME_PACKAGE, PACKAGES)
}
