//! The calls of the lists with memory left, and the text of their error.

use crate::{Args, List, OutOfMemory, Value};
use std::test::Fail;

#[test]
fn lists(rt: HostRuntime) -> Result<(), Fail> {
    let mut list: List<u16> = List::new(rt.alloc());
    assert!(rt; list.is_empty());
    for item in [10, 20, 30, 40] {
        list.push(item)?;
    }
    assert!(rt; !list.is_empty());
    assert_eq!(rt; list.len(), 4);
    assert!(rt; list.get(3) == Some(&40));
    assert!(rt; list.get(4).is_none());
    assert!(rt; list.as_slice() == [10, 20, 30, 40].as_slice());

    assert_eq!(rt; list.replace(1, 21), 20);
    list.truncate(3);
    assert!(rt; list.as_slice() == [10, 21, 30].as_slice());
    list.truncate(9);
    assert_eq!(rt; list.len(), 3);

    let copied = list.copied()?;
    assert!(rt; copied.as_slice() == [10, 21, 30].as_slice());
    let listed = List::from_slice(rt.alloc(), b"ab")?;
    assert!(rt; listed.as_slice() == b"ab".as_slice());
    Ok(())
}

#[test]
fn says_out_of_memory(rt: HostRuntime) -> Result<(), Fail> {
    let text = format!(in rt.alloc(); "{OutOfMemory}")?;
    assert_eq!(rt; text.as_str(), "out of memory");
    Ok(())
}

#[test]
fn hands_values_over(rt: HostRuntime) -> Result<(), Fail> {
    let mut args = Args::new();
    assert!(rt; args.is_empty());
    args.put(Value::Int(7));
    args.put(Value::Null);
    assert!(rt; !args.is_empty());
    assert_eq!(rt; args.len(), 2);
    assert!(rt; args.get(0) == Value::Int(7));
    assert!(rt; args.get(1) == Value::Null);
    args.set(0, Value::Int(9));
    assert_eq!(rt; args.len(), 2);
    assert!(rt; args.get(0) == Value::Int(9));
    assert!(rt; args.get(1) == Value::Null);
    Ok(())
}
