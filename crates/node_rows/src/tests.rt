// The forest 0(1(2), 3), whose nodes are moved, marked and changed.
use crate::laws::{change_examples, examples, list_examples};
use crate::node_list::{NodeAt, NodeList};
use crate::rows::Rows;
use crate::texts::{Written, has_field, has_raw};
use css_text::lexer::Span;
use css_text::txt::Txt;
use css_tree::node::{Block, Field, NodeText, Raw, Source};
use std::alloc::{AllocError, Global};
use std::process::Abort;
use std::test::Fail;

fn rule(alloc: Global, selector: &str) -> Result<NodeText, AllocError> {
    Ok(NodeText::Rule {
        before: None,
        selector: Source {
            source: Txt::new(alloc, selector)?,
            clean: Txt::new(alloc, selector)?,
        },
        between: Txt::new(alloc, "")?,
        block: Block {
            semicolon: false,
            after: None,
        },
    })
}

// Puts a loose node in, if it may be put in there.
fn put(rows: &mut Rows, parent: u32, at: usize, node: u32) -> bool {
    if parent as usize >= rows.len() || node as usize >= rows.len() || node == 0 {
        return false;
    }
    let loose = rows.parent(node).is_none();
    if !loose || rows.holds(node, parent) || at > rows.child_count(parent) as usize {
        return false;
    }
    rows.link(parent, at, node);
    true
}

fn take(rows: &mut Rows, node: u32) -> Option<usize> {
    if node as usize >= rows.len() {
        return None;
    }
    let parent = rows.parent(node)?;
    let at = rows.place(parent, node);
    rows.unlink(parent, node);
    Some(at)
}

fn forest(alloc: Global) -> Result<Rows, AllocError> {
    let mut rows = Rows::with_capacity(alloc, 4)?;
    for selector in ["a", "b", "c", "d"] {
        if rows.len() < 4 {
            rows.add(rule(alloc, selector)?, None)?;
        }
    }
    for (parent, at, node) in [(1, 0, 2), (0, 0, 3), (0, 0, 1)] {
        put(&mut rows, parent, at, node);
    }
    Ok(rows)
}

fn expect_children(rt: &impl Abort, rows: &Rows, n: u32, want: &[u32]) {
    assert!(rt; (n as usize) < rows.len());
    assert_eq!(rt; rows.child_count(n) as usize, want.len());
    for (at, child) in want.iter().enumerate() {
        assert_eq!(rt; rows.child_at(n, at), Some(*child));
    }
    assert_eq!(rt; rows.first_child(n), want.first().copied());
}

#[test]
fn moves(rt: HostRuntime) -> Result<(), Fail> {
    let mut rows = forest(rt.alloc())?;
    expect_children(&rt, &rows, 0, &[1, 3]);
    assert_eq!(rt; put(&mut rows, 2, 0, 1), false);
    assert_eq!(rt; take(&mut rows, 3), Some(1));
    assert_eq!(rt; put(&mut rows, 1, 1, 3), true);
    expect_children(&rt, &rows, 1, &[2, 3]);
    assert_eq!(rt; take(&mut rows, 2), Some(0));
    assert_eq!(rt; put(&mut rows, 0, 0, 2), true);
    assert_eq!(rt; take(&mut rows, 3), Some(0));
    assert_eq!(rt; put(&mut rows, 0, 1, 3), true);
    expect_children(&rt, &rows, 0, &[2, 3, 1]);
    expect_children(&rt, &rows, 1, &[]);
    Ok(())
}

// The root 0 with the children 1 to 6.
fn row_of_six(alloc: Global) -> Result<Rows, AllocError> {
    let mut rows = Rows::with_capacity(alloc, 7)?;
    for n in 0..7 {
        if rows.len() < 7 {
            rows.add(rule(alloc, "a")?, None)?;
            put(&mut rows, 0, (n as usize).saturating_sub(1), n);
        }
    }
    Ok(rows)
}

// Each child goes from its place to another, near the last one that was moved or far from it.
#[test]
fn moves_among_siblings(rt: HostRuntime) -> Result<(), Fail> {
    let mut rows = row_of_six(rt.alloc())?;
    expect_children(&rt, &rows, 0, &[1, 2, 3, 4, 5, 6]);
    for (node, place, at, want) in [
        (3, 2, 4, [1, 2, 4, 5, 3, 6]),
        (5, 3, 3, [1, 2, 4, 5, 3, 6]),
        (2, 1, 0, [2, 1, 4, 5, 3, 6]),
        (6, 5, 2, [2, 1, 6, 4, 5, 3]),
        (6, 2, 5, [2, 1, 4, 5, 3, 6]),
    ] {
        assert_eq!(rt; take(&mut rows, node), Some(place));
        assert_eq!(rt; put(&mut rows, 0, at, node), true);
        expect_children(&rt, &rows, 0, &want);
    }
    Ok(())
}

#[test]
fn reads(rt: HostRuntime) -> Result<(), Fail> {
    let rows = forest(rt.alloc())?;
    assert_eq!(rt; rows.len(), 4);
    for (n, before, after, held) in [
        (0, None, None, false),
        (1, None, Some(3), true),
        (2, None, None, true),
        (3, Some(1), None, false),
    ] {
        assert!(rt; n < rows.len() as u32);
        assert_eq!(rt; rows.previous_sibling(n), before);
        assert_eq!(rt; rows.next_sibling(n), after);
        assert_eq!(rt; rows.holds(1, n), held);
        assert_eq!(rt; rows.is_below_root(n), true);
        assert_eq!(rt; rows.span(n).is_none(), true);
        assert_eq!(rt; has_raw(rows.text(n), Raw::Between, ""), true);
    }
    Ok(())
}

#[test]
fn follows(rt: HostRuntime) -> Result<(), Fail> {
    let rows = forest(rt.alloc())?;
    for (top, m, want) in [
        (0, 0, Some(1)),
        (0, 1, Some(2)),
        (0, 2, Some(3)),
        (0, 3, None),
        (1, 2, None),
    ] {
        assert!(rt; (m as usize) < rows.len() && (top as usize) < rows.len());
        assert!(rt; rows.holds(top, m));
        assert_eq!(rt; rows.follower(top, m), want);
    }
    Ok(())
}

fn expect_dirty(rt: &impl Abort, rows: &Rows, want: &[bool]) {
    rows.facts();
    for (n, dirty) in want.iter().enumerate() {
        assert!(rt; n < rows.len());
        assert_eq!(rt; rows.is_dirty(n as u32), *dirty);
    }
}

fn clean_all(rt: &impl Abort, rows: &mut Rows) {
    for n in 0..4 {
        assert!(rt; (n as usize) < rows.len());
        rows.set_dirty(n, false);
    }
}

#[test]
fn marks(rt: HostRuntime) -> Result<(), Fail> {
    let mut rows = forest(rt.alloc())?;
    expect_dirty(&rt, &rows, &[true, true, true, true]);
    clean_all(&rt, &mut rows);
    assert!(rt; rows.len() > 2);
    rows.mark(2);
    expect_dirty(&rt, &rows, &[true, true, true, false]);
    clean_all(&rt, &mut rows);
    assert!(rt; rows.len() > 2);
    rows.dirty_tree(1);
    expect_dirty(&rt, &rows, &[false, true, true, false]);
    Ok(())
}

#[test]
fn changes(rt: HostRuntime) -> Result<(), Fail> {
    let alloc = rt.alloc();
    let mut rows = forest(alloc)?;
    assert!(rt; rows.len() > 2);
    let text = Written::new(alloc, Field::Selector, "x/*y*/")?;
    rows.set_field(1, Field::Selector, text);
    for (text, want) in [("x", true), ("x/*y*/", true), ("x/*z*/", false)] {
        assert_eq!(rt;
            has_field(alloc, rows.text(1), Field::Selector, text)?,
            want
        );
    }
    assert!(rt; rows.len() > 2);
    rows.set_raw(2, Raw::Semicolon, Txt::new(alloc, ";")?);
    assert_eq!(rt; has_raw(rows.text(2), Raw::Semicolon, ";"), true);
    assert_eq!(rt; has_raw(rows.text(2), Raw::Semicolon, ""), false);
    Ok(())
}

#[test]
fn laws_run(_rt: HostRuntime) {
    examples();
    change_examples();
    list_examples();
}

#[test]
fn builds(rt: HostRuntime) -> Result<(), Fail> {
    let alloc = rt.alloc();
    let span = Span { start: 0, end: 1 };
    let mut nodes = Vec::new(alloc);
    nodes.push(NodeAt {
        parent: 0,
        text: rule(alloc, "a")?,
        span,
    })?;
    let mut rows = Rows::from_nodes(alloc, nodes)?;
    let node = rows.add(rule(alloc, "b")?, Some(span))?;
    assert_eq!(rt; node, 1);
    rows.link_last(0, node);
    expect_children(&rt, &rows, 0, &[1]);
    Ok(())
}

// The root with the rules 1 and 3, and 2 in 1, as they are read.
fn listed(alloc: Global) -> Result<NodeList, AllocError> {
    let span = Span { start: 0, end: 1 };
    let mut list = NodeList::new(alloc, rule(alloc, "")?, span)?;
    for (parent, selector) in [(0, "a"), (1, "b"), (0, "c")] {
        if list.len() < 10 && (parent as usize) < list.len() {
            let text = rule(alloc, selector)?;
            list.push(NodeAt { parent, text, span })?;
        }
    }
    Ok(list)
}

#[test]
fn reads_a_list(rt: HostRuntime) -> Result<(), Fail> {
    let alloc = rt.alloc();
    let mut list = listed(alloc)?;
    assert_eq!(rt; list.len(), 4);
    list.set_end(1, 9);
    let after = Some(Txt::new(alloc, "/")?);
    list.set_block(
        1,
        Block {
            semicolon: true,
            after,
        },
    );
    let rows = list.into_rows();
    expect_children(&rt, &rows, 0, &[1, 3]);
    expect_children(&rt, &rows, 1, &[2]);
    for (n, selector, closed, end) in [(0, "", false, 1), (1, "a", true, 9), (2, "b", false, 1)] {
        assert!(rt; (n as usize) < rows.len());
        assert_eq!(rt;
            has_field(alloc, rows.text(n), Field::Selector, selector)?,
            true
        );
        assert_eq!(rt; has_raw(rows.text(n), Raw::After, "/"), closed);
        assert_eq!(rt; rows.span(n).map_or(0, |span| span.end), end);
    }
    Ok(())
}

// The span of a new node that is given it.
fn span_kept(alloc: Global, span: Span) -> Result<Option<Span>, AllocError> {
    let mut rows = Rows::with_capacity(alloc, 1)?;
    let node = rows.add(rule(alloc, "a")?, Some(span))?;
    Ok(rows.span(node))
}

#[test]
fn keeps_spans(rt: HostRuntime) -> Result<(), Fail> {
    for (start, end) in [(0, 0), (2, 1), (4_294_967_294, 4_294_967_294)] {
        let span = Span { start, end };
        assert_eq!(rt; span_kept(rt.alloc(), span)?, Some(span));
    }
    for (start, end) in [(4_294_967_295, 0), (0, 4_294_967_295)] {
        let span = Span { start, end };
        assert_eq!(rt; span_kept(rt.alloc(), span).is_err(), true);
    }
    Ok(())
}
