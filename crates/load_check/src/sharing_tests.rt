//! Folders that share classes: C25, C26 and C27.

use crate::cases::Wanted::{At, Loads};
use crate::cases::{Case, expect_answers};
use crate::worlds::Domain;
use jk_model::Rule;
use std::test::Fail;

const NODE: (&str, &str) = ("Node.class", "class 0021 Node java/lang/Object");

/// An interface whose method takes a node.
const BOX: (&str, &str) = (
    "Box.class",
    "class 0601 Box java/lang/Object jk/Remote|method 0401 put (LNode;)V 0 0 jk/RemoteException|end",
);

/// Static fields of classes that a line shares, and of others.
const STATICS: &[Case<'static>] = &[
    (
        "static-of-an-interface",
        &[
            (
                "Box.class",
                "class 0601 Box java/lang/Object|field 0019 TOP I 7",
            ),
            ("resolver.txt", "share Box"),
        ],
        At(Rule::C25, "Box.class", 1),
    ),
    (
        "static-shared-with-one",
        &[
            (
                "Box.class",
                "class 0021 Box java/lang/Object|field 1 a I|field 9 b I|field 9 c I",
            ),
            ("resolver.txt", "# to one domain|share Box a"),
        ],
        At(Rule::C25, "Box.class", 2),
    ),
    (
        "static-not-shared",
        &[(
            "Box.class",
            "class 0601 Box java/lang/Object|field 0019 TOP I 7",
        )],
        Loads,
    ),
    // A static field above a shared class, which is not shared itself.
    (
        "static-above",
        &[
            ("Top.class", "class 0021 Top java/lang/Object|field 9 a I"),
            ("Box.class", "class 0021 Box Top"),
            ("resolver.txt", "share Box"),
        ],
        At(Rule::C26, "Box.class", 0),
    ),
];

/// The domains before them.
const OTHER_DOMAIN: &[Domain<'static>] = &[(
    "c",
    &[
        ("Go.class", "class 0021 Go java/lang/Object"),
        ("At.class", "class 0021 At java/lang/Object"),
        (
            "resolver.txt",
            "share Go|share At imported-from-two|share At imported-and-shared-on|share At d",
        ),
    ],
)];

/// Offers of a class, and those of the classes that it refers to. Of the other domains `c` offers `Go` to all and `At` to `b` and to
/// the first folders of the table.
const REFERENCES: &[Case<'static>] = &[
    (
        "node-not-shared",
        &[BOX, NODE, ("resolver.txt", "share Box")],
        At(Rule::C26, "Box.class", 0),
    ),
    (
        "both-shared",
        &[BOX, NODE, ("resolver.txt", "share Box|share Node")],
        Loads,
    ),
    (
        "node-alone-shared",
        &[BOX, NODE, ("resolver.txt", "share Node")],
        Loads,
    ),
    (
        "node-shared-with-one",
        &[BOX, NODE, ("resolver.txt", "share Box|share Node a")],
        At(Rule::C26, "Box.class", 0),
    ),
    (
        "both-shared-with-one",
        &[BOX, NODE, ("resolver.txt", "share Box a|share Node a")],
        Loads,
    ),
    (
        "shared-with-two-others",
        &[BOX, NODE, ("resolver.txt", "share Box a|share Node b")],
        At(Rule::C26, "Box.class", 0),
    ),
    (
        "node-shared-with-more",
        &[BOX, NODE, ("resolver.txt", "share Box a|share Node")],
        Loads,
    ),
    (
        "one-line-of-two",
        &[
            BOX,
            NODE,
            (
                "resolver.txt",
                "share Node a|share Node b|share Box b|share Box c",
            ),
        ],
        At(Rule::C26, "Box.class", 0),
    ),
    // A class of another domain that is offered to all.
    (
        "imported-from-all",
        &[
            ("My.class", "class 0021 My java/lang/Object|field 1 a LGo;"),
            ("resolver.txt", "import c Go|share My"),
        ],
        Loads,
    ),
    // One that is offered to this domain and to d.
    (
        "imported-from-two",
        &[
            ("My.class", "class 0021 My java/lang/Object|field 1 a LAt;"),
            ("resolver.txt", "import c At|share My"),
        ],
        At(Rule::C26, "My.class", 0),
    ),
    (
        "imported-and-shared-on",
        &[
            ("My.class", "class 0021 My java/lang/Object|field 1 a LAt;"),
            ("resolver.txt", "import c At|share My d"),
        ],
        Loads,
    ),
    // References count where nothing uses them: in descriptors of methods, and in code.
    (
        "in-a-result",
        &[
            (
                "My.class",
                "class 0021 My java/lang/Object|method 000a m ()[[LNode; 1 0|aconst_null|areturn|end",
            ),
            NODE,
            ("resolver.txt", "share My"),
        ],
        At(Rule::C26, "My.class", 0),
    ),
    (
        "in-code",
        &[
            (
                "My.class",
                "class 0021 My java/lang/Object|method 0009 m ()V 1 0|aconst_null|checkcast [LNode;|pop|return|end",
            ),
            NODE,
            ("resolver.txt", "share My"),
        ],
        At(Rule::C26, "My.class", 0),
    ),
    // Of two classes the one whose path comes first.
    (
        "first-path-of-two",
        &[
            (
                "b/My.class",
                "class 0021 b/My java/lang/Object|field 1 a LNode;",
            ),
            (
                "a/My.class",
                "class 0021 a/My java/lang/Object|field 1 a LNode;",
            ),
            NODE,
            ("resolver.txt", "share b/My|share a/My"),
        ],
        At(Rule::C26, "a/My.class", 0),
    ),
];

/// Interfaces below jk/Remote. A shared class isn't asked for.
const REMOTE: &[Case<'static>] = &[
    (
        "all-announced",
        &[(
            "Box.class",
            "class 0601 Box java/lang/Object jk/Remote|method 0401 a ()V 0 0 jk/RemoteException|end\
            |method 0401 b ()V 0 0 java/lang/Exception|end|method 0401 c ()V 0 0 java/lang/Throwable|end\
            |method 0401 d ()V 0 0 java/lang/Error jk/RemoteException|end|method 0008 <clinit> ()V 0 0|return|end",
        )],
        Loads,
    ),
    (
        "nothing-thrown",
        &[(
            "Box.class",
            "class 0601 Box java/lang/Object jk/Remote|field 0019 a I 1|method 0401 a ()V 0 0|end",
        )],
        At(Rule::C27, "Box.class", 2),
    ),
    // A class below jk/RemoteException isn't enough.
    (
        "too-little-thrown",
        &[(
            "Box.class",
            "class 0601 Box java/lang/Object jk/Remote|method 0401 a ()V 0 0 java/lang/Exception|end\
            |method 0401 b ()V 0 0 jk/RevokedException java/lang/RuntimeException|end",
        )],
        At(Rule::C27, "Box.class", 2),
    ),
    // Below another interface below jk/Remote.
    (
        "below-another-remote",
        &[
            (
                "A.class",
                "class 0601 A java/lang/Object B|method 0401 a ()V 0 0|end",
            ),
            ("B.class", "class 0601 B java/lang/Object jk/Remote"),
        ],
        At(Rule::C27, "A.class", 1),
    ),
    // Another interface beside jk/Remote, or above it.
    (
        "another-interface-beside",
        &[
            (
                "A.class",
                "class 0601 A java/lang/Object jk/Remote B|method 0401 a ()V 0 0|end",
            ),
            ("B.class", "class 0601 B java/lang/Object"),
        ],
        At(Rule::C27, "A.class", 0),
    ),
    (
        "system-interface-beside",
        &[(
            "A.class",
            "class 0601 A java/lang/Object java/io/Serializable jk/Remote",
        )],
        At(Rule::C27, "A.class", 0),
    ),
    (
        "remote-interface-beside",
        &[
            ("A.class", "class 0601 A java/lang/Object jk/Remote B"),
            ("B.class", "class 0601 B java/lang/Object jk/Remote"),
        ],
        Loads,
    ),
    // A class that implements one may implement others too, and say nothing of what it throws.
    (
        "class-that-implements-it",
        &[
            (
                "A.class",
                "class 0601 A java/lang/Object jk/Remote|method 0401 a ()V 0 0 jk/RemoteException|end",
            ),
            (
                "B.class",
                "class 0021 B java/lang/Object A java/io/Serializable|method 0001 a ()V 0 1|return|end",
            ),
        ],
        Loads,
    ),
    (
        "not-remote",
        &[(
            "A.class",
            "class 0601 A java/lang/Object java/io/Serializable|method 0401 a ()V 0 0|end",
        )],
        Loads,
    ),
];

#[test]
fn classes_that_are_shared(rt: HostRuntime) -> Result<(), Fail> {
    let alloc = rt.alloc();
    expect_answers(&rt, alloc, &[], STATICS)?;
    expect_answers(&rt, alloc, OTHER_DOMAIN, REFERENCES)?;
    expect_answers(&rt, alloc, &[], REMOTE)
}
