//! Where a rule is broken, and files that are passed over.

use crate::cases::Wanted::{At, Loads};
use crate::cases::{Case, expect_answers};
use jk_model::Rule;
use std::test::Fail;

/// Where one rule is broken at several places: the first file in the order of the bytes of paths, and in it members before entries.
const PLACES: &[Case<'static>] = &[
    (
        "hyphen-first",
        &[
            ("a/b.class", "class 0431 a/b java/lang/Object"),
            ("a.class", "class 0431 a java/lang/Object"),
            ("a-b.class", "class 0431 a-b java/lang/Object"),
        ],
        At(Rule::C6, "a-b.class", 0),
    ),
    (
        "dot-first",
        &[
            ("a/b.class", "class 0431 a/b java/lang/Object"),
            ("a.class", "class 0431 a java/lang/Object"),
            ("a-b.class", "class 0021 a-b java/lang/Object"),
        ],
        At(Rule::C6, "a.class", 0),
    ),
    (
        "file-before-folder",
        &[
            ("a/b.class", "class 0431 a/b java/lang/Object"),
            ("a/b/c.class", "class 0431 a/b/c java/lang/Object"),
            ("a.class", "class 0021 a java/lang/Object"),
        ],
        At(Rule::C6, "a/b.class", 0),
    ),
    // The fifth field has no name, and neither has the parent, whose entry is the fourth.
    (
        "member-before-entry",
        &[(
            "A.class",
            "class 0021 A java//Object|field 1 a I|field 1 b I|field 1 c I|field 1 d I|field 1 e.f I",
        )],
        At(Rule::C7, "A.class", 5),
    ),
    (
        "entry",
        &[("A.class", "class 0021 A java//Object|field 1 a I")],
        At(Rule::C7, "A.class", 4),
    ),
    // The first member breaks C7, and the second C6.
    (
        "rule-before-member",
        &[(
            "A.class",
            "class 0021 A java/lang/Object|field 1 a.b I|field 3 b I",
        )],
        At(Rule::C6, "A.class", 2),
    ),
    // Other files are passed over, and a folder needs no class.
    (
        "other-files",
        &[("note.txt", "no class"), ("A.class.txt", "no class")],
        Loads,
    ),
    (
        "names-alike",
        &[
            ("class", "no class"),
            ("A.CLASS", "no class"),
            ("p/resolver.txt", "no resolver"),
        ],
        Loads,
    ),
];

#[test]
fn places_in_their_order(rt: HostRuntime) -> Result<(), Fail> {
    expect_answers(&rt, rt.alloc(), &[], PLACES)
}
