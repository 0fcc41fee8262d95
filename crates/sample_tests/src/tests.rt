//! Programs, worked by hand from the rule, and the query.
use sample::{program, sample_query};
use std::test::Fail;

const FIRST: &str = "int g1(int x) { if (x > 7) { return x - 3; } return x + 5; }\n";

const SECOND: &str = "int g2(int x) { if (x > 14) { return x - 6; } return x + 10; }\n";

#[test]
fn small_programs(rt: HostRuntime) -> Result<(), Fail> {
    let alloc = rt.alloc();
    let one = format!(in alloc; "{FIRST}int f(int x) {{ int s = x; s = g1(s); return s; }}\n")?;
    assert_eq!(rt; program(alloc, 1)?.as_slice(), one.as_bytes());
    let two = format!(in alloc;
        "{FIRST}{SECOND}int f(int x) {{ int s = x; s = g1(s); s = g2(s); return s; }}\n"
    )?;
    assert_eq!(rt; program(alloc, 2)?.as_slice(), two.as_bytes());
    Ok(())
}

// For 200 the three numbers are 1400 mod 31, 600 mod 17 and 1000 mod 13. Each of the 200 lines has 57 bytes and the digits
// of its numbers: 492 of the numbers from 1 to 200, 335 of the bounds, 282 and 247 of what is taken off and added. The last
// line has 25 bytes, 10 and the digits for each call, and 13.
#[test]
fn the_largest_program(rt: HostRuntime) -> Result<(), Fail> {
    let alloc = rt.alloc();
    let text = program(alloc, 200)?;
    assert_eq!(rt;
        text.len(),
        200 * 57 + 492 + 335 + 282 + 247 + 25 + 200 * 10 + 492 + 13
    );
    assert!(rt; text.as_slice().starts_with(FIRST.as_bytes()));
    assert!(rt;
        text.as_slice()
            .ends_with(b" s = g199(s); s = g200(s); return s; }\n")
    );
    Ok(())
}

#[test]
fn the_query(rt: HostRuntime) -> Result<(), Fail> {
    for number in [1, 200] {
        assert_eq!(rt;
            sample_query(rt.alloc(), number)?.as_slice(),
            b"cover @CONDITIONEDGE".as_slice()
        );
    }
    Ok(())
}
