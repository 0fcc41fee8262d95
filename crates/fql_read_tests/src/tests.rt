//! Queries with the trees or the refusals that they have, worked by hand from the grammar.
mod printed;

use fq_core::{Fault, Place};
use fql_read::read_query;
use fql_tokens::query_tokens;
use printed::show;
use std::alloc::{AllocError, Global};
use std::test::Fail;

// The column or the limit of a place, or 0.
fn number_of(place: &Place) -> u64 {
    match place {
        Place::Query { column } => *column as u64,
        Place::Limit { number } => *number,
        _ => 0,
    }
}

// The code of a refusal, and the column or the limit of its place; 0 for want of memory.
fn cause_of(fault: &Fault) -> (u16, u64) {
    match fault {
        Fault::Refused(refusal) => (refusal.code, number_of(&refusal.place)),
        Fault::Memory => (0, 0),
    }
}

// What a query is read as.
fn reading(alloc: Global, query: &str) -> Result<String, Fail> {
    let mut text = String::new(alloc);
    if let Ok(query) = read_query(alloc, query.as_bytes()) {
        show(&mut text, &query)?;
    }
    Ok(text)
}

// The code and the number of the cause for which a query is refused; 1 where it is accepted.
fn refused(alloc: Global, query: &[u8]) -> (u16, u64) {
    match read_query(alloc, query) {
        Ok(_query) => (1, 0),
        Err(fault) => cause_of(&fault),
    }
}

#[test]
fn trees_of_filters(rt: HostRuntime) -> Result<(), Fail> {
    let rows = [
        ("cover EDGES(ID)", "13:ID"),
        ("cover ID", "7:ID"),
        ("CoVeR\n\tid", "8:ID"),
        ("cover nodes(@func(f))", "nodes 13:FUNC f"),
        ("cover PATHS(ID,3)", "paths 3 13:ID"),
        ("cover @FILE( a-b{1}.c )", "7:FILE a-b{1}.c"),
        ("cover @FILE(x,y@z)", "7:FILE x,y@z"),
        ("cover @line(007)", "7:LINE 7"),
        ("cover @LINE(999999999)", "7:LINE 999999999"),
        ("cover @DEF(in)+@USE(ID)", "(7:DEF in + 16:USE ID)"),
        ("cover @LABEL(L)+@CALL(g)", "(7:LABEL L + 17:CALL g)"),
        ("cover @Entry(g)+@EXIT(g)", "(7:ENTRY g + 17:EXIT g)"),
        (
            "cover @BASICBLOCKENTRY+@CONDITIONEDGE",
            "(7:BLOCK + 24:GUARD)",
        ),
        (
            "cover @CONDITIONGRAPH+@DECISIONEDGE",
            "(7:DECISION + 23:OUTCOME)",
        ),
        ("cover @STMTTYPE(if , While,EMPTY)", "7:TYPES 0 2 13"),
        ("cover NOT(COMPLEMENT(ID))", "7:NOT(11:COMPLEMENT(22:ID))"),
        ("cover UNION(ID,ID)", "7:UNION(13:ID,16:ID)"),
        ("cover INTERSECT(ID,ID)", "7:INTERSECT(17:ID,20:ID)"),
        ("cover SETMINUS(ID,ID)", "7:SETMINUS(16:ID,19:ID)"),
        ("cover COMPOSE(ID,ID)", "7:COMPOSE(15:ID,18:ID)"),
    ];
    for (query, tree) in rows {
        assert_eq!(rt; reading(rt.alloc(), query)?.as_str(), tree, "{query}");
    }
    Ok(())
}

#[test]
fn trees_of_clauses(rt: HostRuntime) -> Result<(), Fail> {
    let rows = [
        (
            "cover ID.ID->ID+ID.ID",
            "(((7:ID . 10:ID) -> 14:ID) + (17:ID . 20:ID))",
        ),
        ("cover ID+ID+ID", "((7:ID + 10:ID) + 13:ID)"),
        ("cover ID->ID->ID", "((7:ID -> 11:ID) -> 15:ID)"),
        ("cover ID.ID.ID", "((7:ID . 10:ID) . 13:ID)"),
        ("cover (ID+ID).ID", "((8:ID + 11:ID) . 15:ID)"),
        ("cover ^ID$", "^8:ID$"),
        (
            "in @FUNC(f) cover ID passing ^ID*$",
            "4:FUNC f | 19:ID | ^31:ID x0..@33$",
        ),
        (
            "cover \"ID*\".{y == 9}",
            "(<ID*> [8:ID x0..@10] . p0); y == 9",
        ),
        ("cover {a}.{b}.{a}", "((p0 . p1) . p0); a; b"),
        ("cover {}", "p0; "),
        (
            "cover ID passing \"ID.ID\"==2",
            "7:ID | (19:ID . 22:ID) x2..2@25",
        ),
        (
            "cover \" ID<=3.ID>=0\"",
            "< ID<=3.ID>=0> [(9:ID x0..3@11 . 15:ID x0..@17)]",
        ),
        (
            "cover ID passing ID**.ID",
            "7:ID | (18:ID x0..@20 x0..@21 . 23:ID)",
        ),
        (
            "cover @LINE(7) passing ^NOT(@CALL(g))*$",
            "7:LINE 7 | ^25:NOT(29:CALL g) x0..@38$",
        ),
        ("cover {a} passing {b}+{a}", "p0 | (p1 + p0); a; b"),
    ];
    for (query, tree) in rows {
        assert_eq!(rt; reading(rt.alloc(), query)?.as_str(), tree, "{query}");
    }
    Ok(())
}

// How many predicates a query lists, and whether each has these bytes.
fn predicates(alloc: Global, query: &[u8], bytes: &[u8]) -> (usize, bool) {
    match read_query(alloc, query) {
        Ok(query) => {
            let all = query.predicates.iter().all(|text| text.bytes() == bytes);
            (query.predicates.len(), all)
        }
        Err(_fault) => (0, false),
    }
}

#[test]
fn predicates_have_each_other_byte(rt: HostRuntime) -> Result<(), Fail> {
    let alloc = rt.alloc();
    let mut bytes = Vec::new(alloc);
    for byte in 0..=255u8 {
        if byte != b'{' && byte != b'}' && byte != b'"' {
            bytes.push(byte)?;
        }
    }
    let mut query = Vec::from_slice(alloc, b"cover {")?;
    query.extend_from_slice(&bytes)?;
    query.push(b'}')?;
    assert_eq!(rt; bytes.len(), 253);
    assert_eq!(rt; predicates(alloc, &query, &bytes), (1, true));
    Ok(())
}

#[test]
fn refusals(rt: HostRuntime) {
    let rows = [
        ("cover EDGES(ID)*", 62, 16),
        ("cover ID.ID*.ID*", 62, 12),
        ("cover \"ID*\".ID*", 62, 15),
        ("cover ID==101", 62, 9),
        ("cover PATHS(ID,0)", 64, 16),
        ("cover PATHS(ID,101)", 64, 16),
        ("cover PATHS(ID,100)", 1, 0),
        ("cover \"ID==101\"", 64, 12),
        ("cover \"ID==100\"", 1, 0),
        ("cover \"ID<=0\"", 1, 0),
        ("cover \"ID>=101\"", 64, 12),
        ("cover ID passing PATHS(ID,0)", 64, 27),
        ("cover", 61, 0),
        ("", 61, 0),
        ("cover ID ID", 61, 0),
        ("cover ID* )", 61, 0),
        ("cover ^\"ID==\"2$", 61, 0),
        ("cover \"(\"ID\")\"", 61, 0),
        ("cover ID passing \"ID", 61, 0),
        ("cover ID passing (\"(\"ID\")\")", 61, 0),
        ("cover @FILE()", 61, 0),
        ("cover @STMTTYPE(foo)", 61, 0),
        ("cover @STMTTYPE()", 61, 0),
        ("in NODES(ID) cover ID", 61, 0),
        ("cover #", 60, 7),
        ("cover @FOO", 60, 7),
        ("cover @FILEX", 60, 7),
        ("cover {a", 60, 7),
        ("cover {a\"}", 60, 7),
        ("cover }", 60, 7),
        ("cover ID - ID", 60, 10),
        ("cover ID = ID", 60, 10),
        ("cover @LINE(1234567890)", 60, 13),
        ("cover\x0bID", 60, 6),
        ("(\n)\n#", 60, 5),
    ];
    for (query, code, number) in rows {
        assert_eq!(rt;
            refused(rt.alloc(), query.as_bytes()),
            (code, number),
            "{query}"
        );
    }
}

// A front, so many times a part, a middle, so many times another part.
fn built(
    alloc: Global,
    front: &[u8],
    part: &[u8],
    middle: &[u8],
    other: &[u8],
    times: usize,
) -> Result<Vec<u8>, AllocError> {
    let mut bytes = Vec::from_slice(alloc, front)?;
    for _ in 0..times {
        bytes.extend_from_slice(part)?;
    }
    bytes.extend_from_slice(middle)?;
    for _ in 0..times {
        bytes.extend_from_slice(other)?;
    }
    Ok(bytes)
}

#[test]
fn limits(rt: HostRuntime) -> Result<(), Fail> {
    let alloc = rt.alloc();
    let long = built(alloc, b"cover ID", b" ", b"", b"", 4088)?;
    assert_eq!(rt; refused(alloc, &long), (1, 0));
    let long = built(alloc, b"cover ID", b" ", b"", b"", 4089)?;
    assert_eq!(rt; refused(alloc, &long), (63, 4096));
    let deep = built(alloc, b"cover ", b"(", b"ID", b")", 60)?;
    assert_eq!(rt; refused(alloc, &deep), (1, 0));
    let deep = built(alloc, b"cover ", b"(", b"ID", b")", 61)?;
    assert_eq!(rt; refused(alloc, &deep), (63, 60));
    let deep = built(alloc, b"cover ", b"(", b"#", b")", 61)?;
    assert_eq!(rt; refused(alloc, &deep), (60, 68));
    let many = built(alloc, b"cover ID", b"+ID", b"", b"", 199)?;
    assert_eq!(rt; refused(alloc, &many), (1, 0));
    let many = built(alloc, b"cover ID", b"+ID", b"", b"", 200)?;
    assert_eq!(rt; refused(alloc, &many), (63, 200));
    let row = built(alloc, b"cover \"ID", b"*", b"\"", b"", 4086)?;
    assert_eq!(rt; refused(alloc, &row), (1, 0));
    let nots = built(alloc, b"cover ", b"NOT(", b"ID", b")", 60)?;
    assert_eq!(rt; refused(alloc, &nots), (1, 0));
    Ok(())
}

// PRED of a filter tells its graph's states apart by predicates, the innermost first, each once.
#[test]
fn trees_of_splits(rt: HostRuntime) -> Result<(), Fail> {
    let rows = [
        (
            "cover NODES(PRED(@FUNC(g),{v == 9}))",
            "nodes 18:FUNC g/p0; v == 9",
        ),
        ("cover PRED(@CALL(g),{y == 0})", "12:CALL g/p0; y == 0"),
        ("cover EDGES(pred(Pred(ID,{a}),{b}))", "23:ID/p0/p1; a; b"),
        (
            "cover {b}.PRED(PRED(ID,{a}),{b})",
            "(p0 . 21:ID/p1/p0); b; a",
        ),
        ("cover PRED(PRED(ID,{a}),{a})", "17:ID/p0; a"),
        (
            "cover PRED(PRED(PRED(ID,{a}),{b}),{a})",
            "22:ID/p0/p1; a; b",
        ),
        (
            "cover \"PRED(ID,{a})*\"",
            "<PRED(ID,{a})*> [13:ID/p0 x0..@20]; a",
        ),
        ("cover ID passing PRED(ID,{a})", "7:ID | 23:ID/p0; a"),
        ("cover @FUNC(PRED)", "7:FUNC PRED"),
        (
            "cover PRED(NOT(ID),{a}).NODES(ID)",
            "(12:NOT(16:ID)/p0 . nodes 31:ID); a",
        ),
    ];
    for (query, tree) in rows {
        assert_eq!(rt; reading(rt.alloc(), query)?.as_str(), tree, "{query}");
    }
    Ok(())
}

// It stands in no operator, not in PATHS and not after `in`.
#[test]
fn splits_elsewhere(rt: HostRuntime) -> Result<(), Fail> {
    let rows = [
        "cover PATHS(PRED(ID,{a}),1)",
        "in PRED(ID,{a}) cover ID",
        "cover NOT(PRED(ID,{a}))",
        "cover UNION(ID,PRED(ID,{a}))",
        "cover PRED",
        "cover PRED(ID)",
        "cover PRED(ID,a)",
        "cover PRED(ID,{a},{b})",
        "cover PRED({a},ID)",
        "cover PRED((ID),{a})",
        "cover PRED(NODES(ID),{a})",
    ];
    for query in rows {
        assert_eq!(rt; refused(rt.alloc(), query.as_bytes()), (61, 0), "{query}");
    }
    Ok(())
}

// Each PRED adds a letter, also one of a text that is there, and its text adds none. What stands alone is a letter too.
#[test]
fn letters_of_splits(rt: HostRuntime) -> Result<(), Fail> {
    let alloc = rt.alloc();
    let many = built(alloc, b"cover PRED(ID,{a})", b"+PRED(ID,{a})", b"", b"", 99)?;
    assert_eq!(rt; refused(alloc, &many), (1, 0));
    let many = built(
        alloc,
        b"cover ID+PRED(ID,{a})",
        b"+PRED(ID,{a})",
        b"",
        b"",
        99,
    )?;
    assert_eq!(rt; refused(alloc, &many), (63, 200));
    let many = built(
        alloc,
        b"cover NODES(PRED(PRED(ID,{a}),{a}))",
        b"+ID",
        b"",
        b"",
        197,
    )?;
    assert_eq!(rt; refused(alloc, &many), (1, 0));
    let many = built(
        alloc,
        b"cover NODES(PRED(PRED(ID,{a}),{a}))",
        b"+ID",
        b"",
        b"",
        198,
    )?;
    assert_eq!(rt; refused(alloc, &many), (63, 200));
    let many = built(alloc, b"cover @FUNC(PRED)", b"+@FUNC(PRED)", b"", b"", 199)?;
    assert_eq!(rt; refused(alloc, &many), (1, 0));
    Ok(())
}

#[test]
fn tokens_have_their_columns(rt: HostRuntime) -> Result<(), Fail> {
    let tokens = query_tokens(rt.alloc(), b"in\r\n @FILE (a b) <=12");
    let mut columns = Vec::new(rt.alloc());
    if let Ok(tokens) = tokens {
        for token in &tokens {
            columns.push(token.column)?;
        }
    }
    assert_eq!(rt;
        columns.as_slice(),
        [1, 6, 12, 13, 15, 16, 18, 20].as_slice()
    );
    Ok(())
}
