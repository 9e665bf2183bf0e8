//! The order of sweeps, which no answer of the program depends on: whether it is a topological order, where a way back to the head of a loop counts as a way
//! to the node behind the loop; and the parts of some graphs, by hand.

use ix_core::Program;
use ix_graph::{Graph, Node, NodeKind, graph, sweep_parts};
use ix_lexer::lex;
use ix_lower::lower;
use ix_names::resolve;
use ix_parser::parse;
use std::alloc::{AllocError, Global};
use std::fmt::Write as _;

/// A source with one method, and the parts of its graph, as the numbers of their nodes.
#[derive(Clone, Copy)]
struct Swept {
    source: &'static str,
    parts: &'static [&'static str],
}

const ROWS: &[Swept] = &[
    Swept {
        source: "class A { static void f(int[] a) { int i = 0; while (i < a.length) { a[i] = i; i++; } } }",
        parts: &["0 2 3", "4 9 8 5 10 11 12 13 14 7", "6 1"],
    },
    // Both ways of a test: the second one first.
    Swept {
        source: "class A { static void f(int[] a) { for (int i = 0; i < a.length; i++) { if (a[i] == 0) continue; a[i] = 1; } } }",
        parts: &[
            "0 2 3",
            "4 9 8 5 14 15 13 11 12 16 17 10 7 18 19 20 21",
            "6 1",
        ],
    },
    // The condition stands last, and the loop has no other way out.
    Swept {
        source: "class A { static void f(int x) { do { x = x - 1; if (x == 3) continue; x = 4; } while (x > 0); x = 5; } }",
        parts: &["0", "2 8 9 10 11 16 15 13 14 17 18 12 5 3 7 6", "4 19 20 1"],
    },
];

/// Sources, each with the number of one of its methods.
const SOURCES: &[(&str, usize)] = &[
    (
        "class A { static int f(int a, int b) { int x = a; x = x + b; return x; } }",
        0,
    ),
    ("class A { static void f() { } }", 0),
    (
        "class A { static void f(int x) { if (x < 1) x = 2; x = 3; } }",
        0,
    ),
    (
        "class A { static int f(int x, boolean b) { if (b) x = 1; else { x = 2; x = 3; } return x; } }",
        0,
    ),
    (
        "class A { static void f(int x) { if (x < 1) { if (x > 2) x = 3; else x = 4; } else if (x == 5) { } x = 6; } }",
        0,
    ),
    (
        "class A { static void f(int x, boolean b) { if (x < 1 && b) x = 2; } }",
        0,
    ),
    (
        "class A { static void f(int x, boolean b) { if (x < 1 || b) x = 2; else x = 3; } }",
        0,
    ),
    (
        "class A { static void f(int x, boolean b) { if (!b) x = 1; if (!(x < 2 && !b)) x = 3; } }",
        0,
    ),
    (
        "class A { static void f(int[] a, int i, boolean b) { while (i < a.length && (a[i] != 0 || !(b && i > 1))) i++; } }",
        0,
    ),
    (
        "class A { static boolean f(int x, boolean b) { boolean c = x < 1 && b; if (b = x == 2) ; return !c; } }",
        0,
    ),
    (
        "class A { static int g(int x) { return x; } static void f(int x) { if (true && g(x) > 1) x = 2; if (false && g(x) < 3) x = 4; if (true) x = 5; } }",
        1,
    ),
    (
        "class A { static void f(int[] a) { int i = 0; while (i < a.length) { a[i] = i; i++; } } }",
        0,
    ),
    (
        "class A { static void f(int[] a) { for (int i = 0; i < a.length; i++) { if (a[i] == 0) continue; a[i] = 1; } } }",
        0,
    ),
    (
        "class A { static void f(int x) { do { x = x - 1; if (x == 3) continue; x = 4; } while (x > 0); x = 5; } }",
        0,
    ),
    (
        "class A { static int f(int[] a) { int s = 0; for (int i = 0; i < a.length; i++) { if (a[i] < 0) break; s = s + a[i]; } return s; } }",
        0,
    ),
    (
        "class A { static void f(int x, int y) { while (x < 9) { for (; y < x; y++) { if (y == 1) break; if (y == 2) continue; x = y; } if (x == 5) continue; if (x == 6) break; x++; } y = 7; } }",
        0,
    ),
    (
        "class A { static int f(int x) { while (true) { x++; if (x > 5) break; if (x < 0) return 0; } return x; } }",
        0,
    ),
    (
        "class A { static void f(int x) { for (;;) { x++; if (x == 2) continue; } } }",
        0,
    ),
    (
        "class A { static void f(int x) { while (false || x < 1 && true) x = 2; do x = 3; while (false); } }",
        0,
    ),
    (
        "class A { static int f(int x) { if (x < 0) return -1; x = x + 1; return x; } }",
        0,
    ),
    (
        "class A { static void f(int x, boolean b) { if (b) throw new IllegalStateException(); if (x > 1) return; x = 2; } }",
        0,
    ),
    (
        "class A { static int f(int x) { if (true) return 1; x = 2; return x; } }",
        0,
    ),
    (
        "class A { static boolean f(boolean b, int x) { if (x < 1) return true; if (x < 2) return b; if (x < 3) return f(b, x); if (x < 4) return b || x < 9; return false; } }",
        0,
    ),
    (
        "class A { static void f(int x) { do { x = 1; break; } while (x < 2); while (x < 3) { do { return; } while (x > 4); } } }",
        0,
    ),
    (
        "class A { static int f(int[] a, int x) { for (int i = 0; i < a.length; i++) { if (a[i] == x) return i; if (a[i] > x) throw new IllegalArgumentException(); } return -1; } }",
        0,
    ),
    (
        "class B { int p; B(int p) { this.p = p; } } class A extends B { int[] a; A(int n) { super(n); if (n < 0) { a = new int[0]; return; } a = new int[n]; put(n); } void put(int v) { if (v > 0) a[v - 1] = p; System.out.println(v); } }",
        1,
    ),
    (
        "class A { static int f(int x) { while (x < 1) { if (x < 2) x = 3; else break; if (x < 4) x = 5; else continue; x = 6; } return x; } }",
        0,
    ),
    // No Java (14.22), but it is read, and its plain form has a graph.
    (
        "class A { static void f(int x) { while (x < 1) { if (x < 2) { break; x = 3; } if (x < 4) { continue; x = 5; } if (x < 6) { return; x = 7; } throw new IllegalStateException(); x = 8; } } }",
        0,
    ),
];

/// The plain form of a source; nothing where it has none.
#[tactic(auto, using(ix_meaning::proofs::FewDeclarations::few_classes, ix_meaning::proofs::FewDeclarations::few_members))]
fn lowered(alloc: Global, text: &str) -> Option<Program> {
    let bytes = text.as_bytes();
    if bytes.len() > 1_000_000 {
        return None;
    }
    let Ok(tokens) = lex(alloc, bytes) else {
        return None;
    };
    let Ok(unit) = parse(alloc, &tokens, bytes.len() as u32) else {
        return None;
    };
    let Ok(table) = resolve(alloc, &unit) else {
        return None;
    };
    lower(alloc, &unit, &table).ok()
}

fn line_of(alloc: Global, part: &[usize]) -> Result<String, AllocError> {
    let mut line = String::new(alloc);
    let mut before = "";
    for node in part {
        write!(line, "{before}{node}")?;
        before = " ";
    }
    Ok(line)
}

fn has_lines(alloc: Global, parts: &[Vec<usize>], lines: &[&str]) -> Result<bool, AllocError> {
    if parts.len() != lines.len() {
        return Ok(false);
    }
    for number in 0..lines.len() {
        let line = line_of(alloc, parts[number].as_slice())?;
        if line.as_str() != lines[number] {
            return Ok(false);
        }
    }
    Ok(true)
}

fn has_parts(alloc: Global, row: &Swept) -> bool {
    let Some(program) = lowered(alloc, row.source) else {
        return false;
    };
    let Some(method) = program.methods.as_slice().get(0) else {
        return false;
    };
    let Ok(graph) = graph(alloc, method) else {
        return false;
    };
    let Ok(parts) = sweep_parts(alloc, &graph) else {
        return false;
    };
    has_lines(alloc, parts.as_slice(), row.parts).unwrap_or(false)
}

/// The nodes, part by part.
fn joined(alloc: Global, parts: &[Vec<usize>]) -> Result<Vec<usize>, AllocError> {
    let mut nodes = Vec::new(alloc);
    for part in parts {
        nodes.extend_from_slice(part.as_slice())?;
    }
    Ok(nodes)
}

/// Of each node, its place among these; `size` where it has none.
fn places_of(alloc: Global, size: usize, nodes: &[usize]) -> Result<Vec<usize>, AllocError> {
    let mut places = vec![in alloc; size; size]?;
    for place in 0..nodes.len() {
        if let Some(found) = places.get_mut(nodes[place]) {
            *found = place;
        }
    }
    Ok(places)
}

fn is_before(places: &[usize], one: usize, other: usize) -> bool {
    match (places.get(one), places.get(other)) {
        (Some(first), Some(second)) => first < second,
        _ => false,
    }
}

/// Whether a node stands behind those that lead to it, and the node behind its loop behind those that lead back to it.
fn stands_behind(node: usize, found: &Node<'_>, places: &[usize]) -> bool {
    let is_head = matches!(found.kind, NodeKind::Head(_, _));
    for (from, _) in found.from.as_slice() {
        let target = if is_head && *from > node {
            node.saturating_add(2)
        } else {
            node
        };
        if !is_before(places, *from, target) {
            return false;
        }
    }
    true
}

/// Whether the parts hold each node once, in such an order.
fn is_in_order(alloc: Global, graph: &Graph<'_>) -> Result<bool, AllocError> {
    let size = graph.nodes.len();
    let parts = sweep_parts(alloc, graph)?;
    let nodes = joined(alloc, parts.as_slice())?;
    let places = places_of(alloc, size, nodes.as_slice())?;
    if nodes.len() != size {
        return Ok(false);
    }
    for node in 0..size {
        let has_place = places.get(node).is_some_and(|place| *place < size);
        if !has_place || !stands_behind(node, &graph.nodes[node], places.as_slice()) {
            return Ok(false);
        }
    }
    Ok(true)
}

/// Whether the sweep of that method of the source is in such an order.
fn has_order(alloc: Global, source: &str, method: usize) -> bool {
    let Some(program) = lowered(alloc, source) else {
        return false;
    };
    let Some(method) = program.methods.as_slice().get(method) else {
        return false;
    };
    let Ok(graph) = graph(alloc, method) else {
        return false;
    };
    is_in_order(alloc, &graph).unwrap_or(false)
}

#[test]
fn sweeps_are_in_order(rt: HostRuntime) {
    for &(source, method) in SOURCES {
        assert!(rt; has_order(rt.alloc(), source, method));
    }
}

#[test]
fn sweeps_have_their_parts(rt: HostRuntime) {
    for row in ROWS {
        assert!(rt; has_parts(rt.alloc(), row));
    }
}
