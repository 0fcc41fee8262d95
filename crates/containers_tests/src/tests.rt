use containers::*;
use std::alloc::{AllocError, Global};
use std::test::Fail;

fn vector(alloc: Global, items: &[u32]) -> Result<Vector<u32>, AllocError> {
    let mut vector = Vector::new(alloc);
    for item in items {
        vector.push(*item)?;
    }
    Ok(vector)
}

// Generic code, which knows its items by their bounds alone.
fn copies_are_the_same<T: TryClone + Same + Drop>(
    alloc: Global,
    value: &T,
) -> Result<bool, AllocError> {
    let copy = value.try_clone(alloc)?;
    Ok(copy.same(value))
}

#[test]
fn a_vector_is_its_list(rt: HostRuntime) -> Result<(), Fail> {
    let mut items = vector(rt.alloc(), &[3, 1, 2])?;
    assert_eq!(rt; items.len(), 3);
    assert!(rt; !items.is_empty());
    assert_eq!(rt; items.get(1).copied(), Some(1));
    assert_eq!(rt; items.get(3).copied(), None);
    assert_eq!(rt; items.pop(), Some(2));
    assert_eq!(rt; items.as_slice(), [3, 1].as_slice());
    let mut sum: u32 = 0;
    for item in &items {
        sum = sum.saturating_add(*item);
    }
    assert_eq!(rt; sum, 4);
    let copy = items.clone()?;
    assert!(rt; copy == items);
    let whole = Vector::from_vec(items.into_vec());
    assert_eq!(rt; whole.len(), 2);
    Ok(())
}

#[test]
fn same_and_copies(rt: HostRuntime) -> Result<(), Fail> {
    let alloc = rt.alloc();
    for (a, b, want) in [
        ([1, 2].as_slice(), [1, 2].as_slice(), true),
        (&[1, 2], &[1, 3], false),
        (&[1, 2], &[1], false),
        (&[1], &[1, 2], false),
        (&[], &[], true),
    ] {
        assert_eq!(rt; vector(alloc, a)?.same(&vector(alloc, b)?), want);
    }
    assert!(rt; copies_are_the_same(alloc, &vector(alloc, &[7, 8])?)?);
    assert!(rt; copies_are_the_same(alloc, &(Some(5u64), true))?);
    assert!(rt; copies_are_the_same(alloc, &None::<u32>)?);
    assert!(rt; !Some(1u32).same(&None));
    let boxed = Boxed::new(alloc, 9u32)?;
    assert!(rt; copies_are_the_same(alloc, &boxed)?);
    assert_eq!(rt; *boxed.get(), 9);
    assert_eq!(rt; boxed.into_inner(), 9);
    Ok(())
}

#[test]
fn a_long_vector(rt: HostRuntime) -> Result<(), Fail> {
    let alloc = rt.alloc();
    let mut vector = Vector::new(alloc);
    for item in 0..200_000u32 {
        vector.push(item)?;
    }
    let copy = vector.try_clone(alloc)?;
    assert!(rt; copy.same(&vector));
    assert_eq!(rt; copy.len(), 200_000);
    Ok(())
}
