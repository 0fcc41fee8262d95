//! Reduced suites, worked by hand from the rule.
use containers::Vector;
use std::alloc::{AllocError, Global};
use std::test::Fail;
use suite::{kept_are_needed, kept_hit_all, reduce};

fn lists(alloc: Global, hits: &[&[u32]]) -> Result<Vec<Vector<u32>>, AllocError> {
    let mut lists = Vec::new(alloc);
    for goals in hits {
        lists.push(Vector::from_vec(Vec::from_slice(alloc, goals)?))?;
    }
    Ok(lists)
}

#[test]
fn kept_inputs(rt: HostRuntime) -> Result<(), Fail> {
    let alloc = rt.alloc();
    for (hits, kept) in [
        ([[].as_slice(), &[], &[]], [].as_slice()),
        ([[2, 4].as_slice(), &[1, 3], &[]], &[1, 2]),
        ([[1, 2].as_slice(), &[1], &[2]], &[1]),
        ([[1].as_slice(), &[1, 2], &[2]], &[2]),
        ([[1].as_slice(), &[1], &[1]], &[1]),
        ([[1, 2].as_slice(), &[2, 3], &[3, 1]], &[1, 2]),
        ([[1, 1].as_slice(), &[2, 2], &[0]], &[1, 2, 3]),
    ] {
        let lists = lists(alloc, &hits)?;
        assert!(rt; lists.len() < 4);
        assert_eq!(rt; reduce(alloc, &lists)?.as_slice(), kept);
    }
    kept_hit_all();
    kept_are_needed();
    Ok(())
}

// Inputs 1 to 10,000, of which each hits goal 1 and its own number.
fn many(alloc: Global) -> Result<Vec<Vector<u32>>, AllocError> {
    let mut lists = Vec::new(alloc);
    for number in 1..10_001u32 {
        lists.push(Vector::from_vec([1, number].to_vec(alloc)?))?;
    }
    Ok(lists)
}

#[test]
fn ten_thousand_inputs(rt: HostRuntime) -> Result<(), Fail> {
    let alloc = rt.alloc();
    let lists = many(alloc)?;
    if lists.len() < 20_000 {
        let kept = reduce(alloc, &lists)?;
        assert_eq!(rt; kept.len(), 9_999);
        assert_eq!(rt; kept.first().copied(), Some(2));
    }
    Ok(())
}
