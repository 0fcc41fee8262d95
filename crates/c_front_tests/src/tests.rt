use c_front::*;
use fq_core::Fault;
use std::test::Fail;
use test_programs::texts_of;

// Two texts are one unit: its automaton has the functions of both, and the edges have the places of their own text.
#[test]
fn an_automaton_of_two_texts(rt: HostRuntime) -> Result<(), Fail> {
    let sources = [
        ("p1.c", "int g(int v) { return v; }\n"),
        ("p2.c", "int f(int x) {\n  return g(x);\n}\n"),
    ];
    let Ok(texts) = texts_of(rt.alloc(), &sources) else {
        return Err(Fail::from("no memory"));
    };
    assert!(rt; c_lex::are_small(&texts));
    assert!(rt; texts.len() == 2);
    let Ok(graph) = automaton_of_texts(rt.alloc(), &texts) else {
        return Err(Fail::from("no automaton"));
    };
    assert_eq!(rt; graph.functions().len(), 2);
    assert_eq!(rt; graph.files().len(), 2);
    assert_eq!(rt; graph.files()[1].bytes(), b"p2.c".as_slice());
    assert_eq!(rt; graph.function_named(b"f"), Some(1));
    // g's return; f's call, its return edge, and f's return.
    assert_eq!(rt; graph.edges().len(), 4);
    assert_eq!(rt;
        (graph.edges()[0].span.file, graph.edges()[0].span.line),
        (0, 1)
    );
    assert_eq!(rt;
        (graph.edges()[3].span.file, graph.edges()[3].span.line),
        (1, 2)
    );
    Ok(())
}

// A refusal of each stage.
#[test]
fn refusals(rt: HostRuntime) -> Result<(), Fail> {
    for (source, code) in [
        ("int f(void) { return @; }", 10),
        ("int f(void) { return 1 }", 20),
        ("int f(float x) { return 1; }", 21),
        ("int f(void) { return y; }", 30),
        ("int a[1025];", 34),
    ] {
        let Ok(texts) = texts_of(rt.alloc(), &[("a.c", source)]) else {
            return Err(Fail::from("no memory"));
        };
        assert!(rt; c_lex::are_small(&texts));
        assert!(rt; texts.len() == 1);
        match automaton_of_texts(rt.alloc(), &texts) {
            Err(Fault::Refused(refusal)) => assert_eq!(rt; refusal.code, code, "{source}"),
            _ => return Err(Fail::from(source)),
        }
    }
    Ok(())
}
