// Trees of every kind, absent raws, and trees that are deep or wide.
use crate::entries::{Entries, at_rule, bare_rule, comment, decl, rule};
use crate::printed::{Printed, print, print_node};
use css_text::stop::Stop;
use css_text::txt::Txt;
use css_tree::node::{Kind, Raw};
use node_store::fault::TreeFault;
use node_store::id::NodeId;
use node_store::work::Work;
use std::alloc::{AllocError, Global};
use std::process::Abort;
use std::test::Fail;

fn id(number: u32) -> NodeId {
    NodeId::new(number)
}

// `@m x{a{b:c!important}}/* k*/`, whose nodes are 1 to 4.
fn every_kind(alloc: Global) -> Result<Work, AllocError> {
    let mut entries = Entries::new(alloc, "\n")?;
    entries.push_top(at_rule(alloc, "m", "x")?)?;
    entries.push_below(rule(alloc, "a")?)?;
    entries.push_below(decl(alloc, Some(Txt::new(alloc, " ")?), ":", true)?)?;
    entries.push_top(comment(alloc, "k")?)?;
    entries.work(alloc)
}

fn expect_starts(rt: &impl Abort, printed: &Printed, starts: &[(u32, u64)]) {
    assert_eq!(rt; printed.starts.len(), starts.len());
    for (start, want) in printed.starts.iter().zip(starts) {
        assert_eq!(rt; (start.node.number(), start.at), *want);
    }
}

#[test]
fn reads(rt: HostRuntime) -> Result<(), Fail> {
    let work = every_kind(rt.alloc())?;
    assert_eq!(rt; work.node_total(), 5);
    assert_eq!(rt; work.text().as_str(), "");
    assert_eq!(rt; work.bom(), false);
    assert_eq!(rt; work.log().len(), 0);
    let _alloc = work.alloc();
    assert_eq!(rt; work.kind(id(1)), Ok(Kind::AtRule));
    assert_eq!(rt; work.kind(id(5)), Err(TreeFault::NoSuchNode));
    assert_eq!(rt; work.parent(id(3)), Ok(Some(id(2))));
    assert_eq!(rt; work.has_block(id(3)), Ok(false));
    assert_eq!(rt; work.child_count(id(0)), Ok(2));
    assert_eq!(rt; work.child_at(id(0), 1), Ok(Some(id(4))));
    assert_eq!(rt; work.child_at(id(0), 2), Ok(None));
    assert_eq!(rt; work.first_child(id(0)), Ok(Some(id(1))));
    assert_eq!(rt; work.next_sibling(id(1)), Ok(Some(id(4))));
    assert_eq!(rt; work.is_dirty(id(4)), Ok(true));
    assert_eq!(rt; work.is_below_root(id(3)), Ok(true));
    match work.span(id(3)) {
        Ok(Some(span)) => assert_eq!(rt; span.end, 0),
        _ => assert!(rt; false),
    }
    Ok(())
}

#[test]
fn fields(rt: HostRuntime) -> Result<(), Fail> {
    let work = every_kind(rt.alloc())?;
    for (read, want) in [
        (work.name(id(1)), "m"),
        (work.params(id(1)), "x"),
        (work.params_source(id(1)), "x"),
        (work.selector(id(2)), "a"),
        (work.selector_source(id(2)), "a"),
        (work.prop(id(3)), "b"),
        (work.value(id(3)), "c"),
        (work.value_source(id(3)), "c"),
        (work.comment_text(id(4)), "k"),
    ] {
        assert_eq!(rt; read, Ok(want));
    }
    assert_eq!(rt; work.important(id(3)), Ok(true));
    assert_eq!(rt; work.raw(id(2), Raw::Semicolon), Ok(Some("")));
    assert_eq!(rt; work.raw(id(3), Raw::Before), Ok(Some(" ")));
    assert_eq!(rt; work.raw(id(0), Raw::Before), Err(TreeFault::WrongKind));
    assert_eq!(rt; work.prop(id(2)), Err(TreeFault::WrongKind));
    match work.node_text(id(9)) {
        Err(fault) => assert_eq!(rt; fault, TreeFault::NoSuchNode),
        Ok(_) => assert!(rt; false),
    }
    Ok(())
}

#[test]
fn prints(rt: HostRuntime) -> Result<(), Fail> {
    let work = every_kind(rt.alloc())?;
    let printed = print(rt.alloc(), &work)?;
    assert_eq!(rt; printed.text.as_str(), "@m x{a{ b:c!important}}/* k*/\n");
    expect_starts(&rt, &printed, &[(1, 0), (2, 5), (3, 8), (4, 23)]);
    match print_node(rt.alloc(), &work, id(3)) {
        Ok(printed) => {
            assert_eq!(rt; printed.text.as_str(), "b:c!important");
            expect_starts(&rt, &printed, &[(3, 0)]);
        }
        Err(_) => assert!(rt; false),
    }
    for unknown in [5, 9] {
        match print_node(rt.alloc(), &work, id(unknown)) {
            Err(Stop::Fault(fault)) => assert_eq!(rt; fault, TreeFault::NoSuchNode),
            _ => assert!(rt; false),
        }
    }
    Ok(())
}

#[test]
fn prints_absent_raws(rt: HostRuntime) -> Result<(), Fail> {
    let alloc = rt.alloc();
    let mut entries = Entries::new(alloc, "")?;
    entries.push_top(bare_rule(alloc, "a")?)?;
    entries.push_below(decl(alloc, None, ": ", false)?)?;
    entries.push_top(bare_rule(alloc, "d")?)?;
    let printed = print(alloc, &entries.work(alloc)?)?;
    assert_eq!(rt; printed.text.as_str(), "a {\n    b: c;\n}\nd {}");
    Ok(())
}

// A later child takes the white space before the first one alone, and neither its `;` nor its `*`.
#[test]
fn prints_like_the_first_child(rt: HostRuntime) -> Result<(), Fail> {
    let alloc = rt.alloc();
    let mut entries = Entries::new(alloc, "")?;
    entries.push_top(decl(alloc, Some(Txt::new(alloc, "\n;*")?), ":", false)?)?;
    entries.push_top(decl(alloc, None, ":", false)?)?;
    let printed = print(alloc, &entries.work(alloc)?)?;
    assert_eq!(rt; printed.text.as_str(), "\n;*b:c;\nb:c");
    Ok(())
}

#[test]
fn prints_a_nested_node(rt: HostRuntime) -> Result<(), Fail> {
    let alloc = rt.alloc();
    let mut entries = Entries::new(alloc, "")?;
    entries.push_top(at_rule(alloc, "m", "x")?)?;
    entries.push_below(bare_rule(alloc, "a")?)?;
    entries.push_below(bare_rule(alloc, "d")?)?;
    entries.push_below(decl(alloc, None, ": ", false)?)?;
    let work = entries.work(alloc)?;
    for (n, text, starts) in [
        (
            2,
            "a {\n        d {\n            b: c;\n        }\n    }",
            [(2, 0), (3, 12), (4, 28)].as_slice(),
        ),
        (
            3,
            "d {\n            b: c;\n        }",
            [(3, 0), (4, 16)].as_slice(),
        ),
    ] {
        match print_node(alloc, &work, id(n)) {
            Ok(printed) => {
                assert_eq!(rt; printed.text.as_str(), text);
                expect_starts(&rt, &printed, starts);
            }
            Err(_) => assert!(rt; false, "{n}"),
        }
    }
    Ok(())
}

#[test]
fn prints_deep_and_wide(rt: HostRuntime) -> Result<(), Fail> {
    let alloc = rt.alloc();
    let mut deep = Entries::new(alloc, "")?;
    for _level in 0..200 {
        deep.push_below(rule(alloc, "a")?)?;
    }
    let printed = print(alloc, &deep.work(alloc)?)?;
    assert_eq!(rt;
        (printed.text.as_str().len(), printed.starts.len()),
        (600, 200)
    );
    let mut wide = Entries::new(alloc, "")?;
    wide.push_top(decl(alloc, None, ":", false)?)?;
    for _child in 1..100_000 {
        wide.push_top(comment(alloc, "k")?)?;
    }
    let printed = print(alloc, &wide.work(alloc)?)?;
    assert_eq!(rt;
        (printed.text.as_str().len(), printed.starts.len()),
        (599_997, 100_000)
    );
    Ok(())
}
