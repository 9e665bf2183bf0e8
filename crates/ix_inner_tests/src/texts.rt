//! Lists, boxes and texts that hold themselves, their copies, and the lines and columns of places.

use ix_text::{Boxed, LineMap, List, Span, Text};
use std::alloc::{AllocError, Global};

/// A type that contains itself through a `List` and a `Boxed`.
#[derive(PartialEq, Eq, Drop)]
struct Tree {
    name: Text,
    span: Span,
    first: Option<Boxed<Tree>>,
    others: List<Tree>,
}

fn leaf(alloc: Global, name: &str) -> Result<Tree, AllocError> {
    Ok(Tree {
        name: Text::from_str(alloc, name)?,
        span: Span { from: 0, to: 1 },
        first: None,
        others: List::new(alloc),
    })
}

/// A node over three leaves, one in the box and two in the list.
fn four_nodes(alloc: Global, last: &str) -> Result<Tree, AllocError> {
    let mut node = leaf(alloc, "a")?;
    node.first = Some(Boxed::new(alloc, leaf(alloc, "b")?)?);
    let mut others = List::new(alloc);
    others.push(leaf(alloc, "c")?)?;
    others.push(leaf(alloc, last)?)?;
    node.others = others;
    Ok(node)
}

/// Whether a name stands in the tree, by recursion through the box and the list.
fn has_name(tree: &Tree, name: &str) -> bool {
    if tree.name.as_str() == name {
        return true;
    }
    if let Some(first) = &tree.first {
        if has_name(first.get(), name) {
            return true;
        }
    }
    for other in tree.others.as_slice() {
        if has_name(other, name) {
            return true;
        }
    }
    false
}

/// Whether trees are compared and searched through the box and the list.
fn trees_agree(alloc: Global) -> Result<bool, AllocError> {
    let one = four_nodes(alloc, "d")?;
    let same = four_nodes(alloc, "d")?;
    let other = four_nodes(alloc, "e")?;
    let found = has_name(&one, "b") && has_name(&one, "d") && has_name(&other, "e");
    Ok(one == same && one != other && found && !has_name(&one, "e") && one.others.len() == 2)
}

#[test]
fn trees_hold_themselves(rt: HostRuntime) {
    assert!(rt; trees_agree(rt.alloc()) == Ok(true));
}

/// Whether a list, a box and a text equal their copies.
fn copies_agree(alloc: Global) -> Result<bool, AllocError> {
    let mut list: List<u32> = List::new(alloc);
    list.push(7)?;
    let list_copy = list.clone()?;
    let boxed = Boxed::new(alloc, 8_u32)?;
    let box_copy = boxed.clone()?;
    let text = Text::from_str(alloc, "née")?;
    let text_copy = text.clone()?;
    let from_string = Text::from_string(String::from_str(alloc, "née")?);
    let same = list == list_copy && boxed == box_copy && text == text_copy && text == from_string;
    Ok(same && text.as_str().len() == 4 && boxed.into_inner() == 8)
}

#[test]
fn copies_are_equal(rt: HostRuntime) {
    assert!(rt; copies_agree(rt.alloc()) == Ok(true));
}

/// Texts, places in them, and the line and column of each.
const PLACES: &[(&[u8], u32, (u32, u32))] = &[
    (b"", 0, (1, 1)),
    (b"a", 1, (1, 2)),
    (b"a\nb", 1, (1, 2)),
    (b"a\nb", 2, (2, 1)),
    (b"a\r\nb", 2, (1, 3)),
    (b"a\r\nb", 3, (2, 1)),
    (b"a\rb", 1, (1, 2)),
    (b"a\rb", 2, (2, 1)),
    (b"a\n\rb\n", 2, (2, 1)),
    (b"a\n\rb\n", 3, (3, 1)),
    (b"a\n\rb\n", 5, (4, 1)),
    (b"\r\r\n\n", 2, (2, 2)),
    (b"\r\r\n\n", 4, (4, 1)),
    (b"\xC3\xA9\xE2\x82\xAC\xF0\x9D\x84\x9Ex\r", 1, (1, 2)),
    (b"\xC3\xA9\xE2\x82\xAC\xF0\x9D\x84\x9Ex\r", 9, (1, 4)),
    (b"\xC3\xA9\xE2\x82\xAC\xF0\x9D\x84\x9Ex\r", 11, (2, 1)),
];

fn place_in(alloc: Global, text: &[u8], at: u32) -> Option<(u32, u32)> {
    if text.len() < 1000 && at as usize <= text.len() {
        LineMap::new(alloc, text).ok().map(|lines| lines.place(at))
    } else {
        None
    }
}

fn wrongly_placed(alloc: Global) -> usize {
    PLACES
        .iter()
        .filter(|(text, at, place)| place_in(alloc, text, *at) != Some(*place))
        .count()
}

#[test]
fn places_have_lines_and_columns(rt: HostRuntime) {
    assert!(rt; wrongly_placed(rt.alloc()) == 0);
}

/// A line of 150 characters of two bytes, and one of 200 of one byte: longer than some blocks of the map.
fn two_long_lines(alloc: Global) -> Result<Vec<u8>, AllocError> {
    let mut text = Vec::new(alloc);
    for _ in 0..150 {
        text.push(0xC3)?;
        text.push(0xA9)?;
    }
    text.push(b'\n')?;
    for _ in 0..200 {
        text.push(b'x')?;
    }
    Ok(text)
}

/// Places in them.
const LONG: &[(u32, (u32, u32))] = &[
    (63, (1, 33)),
    (64, (1, 33)),
    (300, (1, 151)),
    (301, (2, 1)),
    (501, (2, 201)),
];

fn long_lines_agree(alloc: Global) -> bool {
    match two_long_lines(alloc) {
        Ok(text) => LONG
            .iter()
            .all(|(at, place)| place_in(alloc, &text, *at) == Some(*place)),
        Err(_) => false,
    }
}

#[test]
fn long_lines_have_columns(rt: HostRuntime) {
    assert!(rt; long_lines_agree(rt.alloc()));
}
