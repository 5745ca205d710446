//! Which types are below which, by the hierarchy of the system classes, and what arrays of arrays cost.

use class_table::ClassTable;
use heap_loops::arrays_words;
use instance_tests::{is_a, is_object_a};
use jk_model::{ClassId, OutOfMemory};
use jk_model_classes::{BaseRef, TypeRef};
use jk_model_heaps::Shape;
use std::test::Fail;

// System classes.
const OBJECT: BaseRef = BaseRef::Class(ClassId(0));

const SERIALIZABLE: BaseRef = BaseRef::Class(ClassId(1));

const CLONEABLE: BaseRef = BaseRef::Class(ClassId(2));

const STRING: BaseRef = BaseRef::Class(ClassId(3));

const THROWABLE: BaseRef = BaseRef::Class(ClassId(9));

const ARITHMETIC_EXCEPTION: BaseRef = BaseRef::Class(ClassId(19));

/// Two types, by dimensions and base, and whether what is of the first is an instance of the second.
const CASES: &[(u8, BaseRef, u8, BaseRef, bool)] = &[
    (0, OBJECT, 0, OBJECT, true),
    (0, ARITHMETIC_EXCEPTION, 0, THROWABLE, true),
    (0, ARITHMETIC_EXCEPTION, 0, OBJECT, true),
    (0, ARITHMETIC_EXCEPTION, 0, SERIALIZABLE, true),
    (0, THROWABLE, 0, ARITHMETIC_EXCEPTION, false),
    (0, OBJECT, 0, SERIALIZABLE, false),
    (0, SERIALIZABLE, 0, OBJECT, true),
    (0, STRING, 0, SERIALIZABLE, true),
    (0, STRING, 0, CLONEABLE, false),
    // All arrays are instances of these three, and of no other class.
    (1, BaseRef::Int, 0, OBJECT, true),
    (1, BaseRef::Int, 0, CLONEABLE, true),
    (1, BaseRef::Int, 0, SERIALIZABLE, true),
    (1, OBJECT, 0, SERIALIZABLE, true),
    (1, BaseRef::Int, 0, STRING, false),
    (0, OBJECT, 1, OBJECT, false),
    // Arrays of numbers.
    (1, BaseRef::Int, 1, BaseRef::Int, true),
    (1, BaseRef::Int, 1, BaseRef::Long, false),
    (1, BaseRef::Byte, 1, BaseRef::Bool, false),
    (1, BaseRef::Int, 1, OBJECT, false),
    (1, BaseRef::Int, 1, CLONEABLE, false),
    (2, BaseRef::Int, 1, OBJECT, true),
    (2, BaseRef::Int, 1, CLONEABLE, true),
    (2, BaseRef::Int, 1, SERIALIZABLE, true),
    (2, BaseRef::Int, 1, BaseRef::Int, false),
    (2, BaseRef::Int, 1, STRING, false),
    (2, BaseRef::Int, 2, OBJECT, false),
    (3, BaseRef::Int, 2, OBJECT, true),
    (3, BaseRef::Int, 1, CLONEABLE, true),
    // Arrays of references, by what their elements are.
    (1, STRING, 1, OBJECT, true),
    (1, STRING, 1, SERIALIZABLE, true),
    (1, STRING, 1, CLONEABLE, false),
    (1, ARITHMETIC_EXCEPTION, 1, THROWABLE, true),
    (1, THROWABLE, 1, ARITHMETIC_EXCEPTION, false),
    (1, SERIALIZABLE, 1, OBJECT, true),
    (2, STRING, 2, SERIALIZABLE, true),
    (2, STRING, 1, STRING, false),
    (2, STRING, 1, OBJECT, true),
    (1, OBJECT, 2, OBJECT, false),
];

#[test]
fn types(rt: HostRuntime) -> Result<(), OutOfMemory> {
    let t = ClassTable::new(rt.alloc())?;
    for (dims, base, other_dims, other_base, wanted) in CASES {
        let a = TypeRef {
            dims: *dims,
            base: *base,
        };
        let b = TypeRef {
            dims: *other_dims,
            base: *other_base,
        };
        assert!(rt; is_a(&t, &a, &b) == *wanted, "{a:?} as {b:?}");
        if let Some(element_dims) = dims.checked_sub(1) {
            let element = TypeRef {
                dims: element_dims,
                base: *base,
            };
            let is = is_object_a(&t, &Shape::Array(element, 2), &b);
            assert!(rt; is == *wanted, "an array of {element:?} as {b:?}");
        }
    }
    Ok(())
}

/// Array types by dimensions and base, counts, and what the arrays cost together: each four words, and one for an item, two for a long.
const WORDS: &[(u8, BaseRef, &[u32], Option<u64>)] = &[
    // One of two references, and two of three ints.
    (2, BaseRef::Int, &[2, 3], Some(20)),
    (2, BaseRef::Long, &[2, 3], Some(26)),
    (3, BaseRef::Long, &[2, 3], Some(20)),
    (1, BaseRef::Byte, &[5], Some(9)),
    (1, BaseRef::Long, &[5], Some(14)),
    (1, BaseRef::Int, &[0], Some(4)),
    (2, BaseRef::Int, &[0, 2_147_483_647], Some(4)),
    (3, BaseRef::Int, &[2, 0, 2_147_483_647], Some(14)),
    (2, BaseRef::Int, &[3, 0], Some(19)),
    // The most words, and one more.
    (1, BaseRef::Int, &[16_777_212], Some(16_777_216)),
    (1, BaseRef::Int, &[16_777_213], None),
    (1, BaseRef::Long, &[8_388_606], Some(16_777_216)),
    (1, BaseRef::Long, &[8_388_607], None),
    (2, BaseRef::Int, &[2_147_483_647, 2_147_483_647], None),
    (3, BaseRef::Long, &[4000, 4000, 2_147_483_647], None),
];

#[test]
fn words_of_arrays(rt: HostRuntime) {
    for (dims, base, counts, wanted) in WORDS {
        let kind = TypeRef {
            dims: *dims,
            base: *base,
        };
        assert!(rt; counts.len() <= usize::from(kind.dims));
        assert!(rt;
            arrays_words(&kind, counts) == *wanted,
            "{kind:?} of {counts:?}"
        );
    }
}
