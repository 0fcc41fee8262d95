use containers::chains::Chain;
use std::alloc::{AllocError, Global};
use std::test::Fail;

fn numbers(alloc: Global, count: u32, rest: Chain<u32>) -> Result<Chain<u32>, AllocError> {
    let mut chain = rest;
    for i in 0..count {
        chain = Chain::with(alloc, i, chain)?;
    }
    Ok(chain)
}

fn sum(chain: &Chain<u32>) -> u64 {
    let mut total = 0u64;
    for number in chain.iter() {
        total = total.wrapping_add(*number as u64);
    }
    total
}

#[test]
fn elements_in_order(rt: HostRuntime) -> Result<(), Fail> {
    let chain = numbers(rt.alloc(), 3, Chain::new())?;
    let found: Vec<u32> = chain.iter().copied().collect(rt.alloc())?;
    assert_eq!(rt; found.as_slice(), [2, 1, 0].as_slice());
    let text = format!(in rt.alloc(); "{chain:?}")?;
    assert_eq!(rt; text.as_str(), "[2, 1, 0, ]");
    match chain.split() {
        None => assert!(rt; false),
        Some((first, rest)) => {
            assert_eq!(rt; *first, 2);
            assert_eq!(rt; sum(rest), 1);
        }
    }
    Ok(())
}

// A long tail that many lists share takes memory once, and is dropped in little stack, last by the list that is left.
#[test]
fn shared_tails(rt: HostRuntime) -> Result<(), Fail> {
    let tail = numbers(rt.alloc(), 200_000, Chain::new())?;
    let mut lists: Vec<Chain<u32>> = Vec::new(rt.alloc());
    for i in 0..2_000u32 {
        lists.push(Chain::with(rt.alloc(), i, tail.share()?)?)?;
    }
    drop(tail);
    assert_eq!(rt; lists.len(), 2_000);
    match lists.pop() {
        None => assert!(rt; false),
        Some(last) => {
            drop(lists);
            assert_eq!(rt; sum(&last), 19_999_900_000 + 1_999);
        }
    }
    Ok(())
}
