//! What objects cost, and a text in a store over vectors.

ghost use Rattle.std.specs.Prelude.{◌≡◌, [], ◌∷◌, None, IfOk};
ghost use Rattle.jk_model.specs.declared.identifiers.DomainId.{DomainId as Domain};
ghost use Rattle.jk_model_domains.specs.Objects.{Text};
ghost use Rattle.object_store.specs.HeapContents.{IsAdmitted, IsLive};

use class_table::ClassTable;
use jk_model::{DomainId, NoRoom, SegmentNo, Value};
use jk_model_classes::{BaseRef, TypeRef};
use jk_model_heaps::Shape;
use object_costs::shape_words;
use object_store::ObjectStore;
use plain_store::PlainStore;
use std::process::Abort;
use std::test::Fail;

const D: DomainId = DomainId(3);

const INT: TypeRef = TypeRef {
    dims: 0,
    base: BaseRef::Int,
};

const LONG: TypeRef = TypeRef {
    dims: 0,
    base: BaseRef::Long,
};

const BYTE: TypeRef = TypeRef {
    dims: 0,
    base: BaseRef::Byte,
};

const LONGS: TypeRef = TypeRef {
    dims: 1,
    base: BaseRef::Long,
};

/// What objects cost: four words, and one for each element or unit, two where an element is long, and two for a Task.
const COSTS: &[(Shape, u64)] = &[
    (Shape::Array(INT, 0), 4),
    (Shape::Array(INT, 3), 7),
    (Shape::Array(BYTE, 12), 16),
    (Shape::Array(LONG, 6), 16),
    (Shape::Array(LONG, 7), 18),
    (Shape::Array(LONGS, 7), 11),
    (Shape::Array(LONG, 4_294_967_295), 8_589_934_594),
    (Shape::Text(0), 4),
    (Shape::Text(5), 9),
    (Shape::Task(SegmentNo(7)), 6),
];

#[test]
fn costs(rt: HostRuntime) -> Result<(), Fail> {
    let t = ClassTable::new(rt.alloc())?;
    for (shape, words) in COSTS {
        assert!(rt; shape_words(&t, shape) == *words, "{shape:?}");
    }
    Ok(())
}

/// Makes a text of two units in a domain of ten words.
fn make_text<H: ObjectStore>(rt: &impl Abort, heap: &mut H, t: &ClassTable) -> Result<u32, Fail>
    requires { (d : Domain) → (H.content heap.old).quota d ≡ None }
    ensures admitted { IfOk result (λ _. IsAdmitted (H.content heap.new) D) }
    ensures text { IfOk result (λ a. IsLive (H.content heap.new) D a (Text (0 ∷ 0 ∷ []))) }
{
    heap.admit(D, 10)?;
    let a = heap.make(t, D, Shape::Text(2))?;
    assert!(rt; heap.free(D) == 4);
    assert!(rt; heap.mark(D, a) == 0);
    Ok(a)
}

/// Writes the second unit of the text, and marks it.
fn write_text<H: ObjectStore>(rt: &impl Abort, heap: &mut H, t: &ClassTable, a: u32)
    requires admitted { IsAdmitted (H.content heap.old) D }
    requires text { IsLive (H.content heap.old) D a (Text (0 ∷ 0 ∷ [])) }
    ensures { IsAdmitted (H.content heap.new) D }
{
    heap.write(t, D, a, 1, Value::Int(65_535));
    heap.set_mark(D, a, 9);
    assert!(rt; heap.read(t, D, a, 0) == Value::Int(0));
    assert!(rt; heap.read(t, D, a, 1) == Value::Int(65_535));
    assert!(rt; heap.mark(D, a) == 9);
    assert!(rt; heap.shape(D, a) == Shape::Text(2));
    assert!(rt; heap.next_name(D, None) == Some(a));
    assert!(rt; heap.next_name(D, Some(a)).is_none());
}

/// Takes the last four words of the domain, and ends it.
fn fill<H: ObjectStore>(rt: &impl Abort, heap: &mut H, t: &ClassTable)
    requires { IsAdmitted (H.content heap.old) D }
{
    assert!(rt; heap.make(t, D, Shape::Text(1)) == Err(NoRoom));
    assert!(rt; heap.make(t, D, Shape::Text(0)).is_ok());
    assert!(rt; heap.free(D) == 0);
    assert!(rt; heap.pool_words().is_none());
    assert!(rt; heap.first_page(D).is_none());
    heap.close(D);
}

#[test]
fn a_text(rt: HostRuntime) -> Result<(), Fail> {
    let t = ClassTable::new(rt.alloc())?;
    let mut heap = PlainStore::new(rt.alloc());
    let a = make_text(&rt, &mut heap, &t)?;
    write_text(&rt, &mut heap, &t, a);
    fill(&rt, &mut heap, &t);
    Ok(())
}
