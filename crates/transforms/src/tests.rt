// The transforms on small sheets.
ghost use Rattle.std.specs.Prelude.{◌≡◌, [], IfOk};

use crate::acts::{DropComment, DropEmpty, ShortHex, Unnest};
use crate::dropping::{drop_comment, drop_empty};
use crate::short_hex::short_hex;
use crate::unnest::unnest;
use css_text::lexer::Span;
use css_text::stop::Stop;
use css_text::text::Text;
use css_tree::node::{Block, NodeText, Raw};
use edit_calls::making::{new_comment, new_decl, new_rule};
use edit_calls::moving::append;
use edit_calls::setting::set_raw;
use node_rows::node_list::NodeAt;
use node_store::fault::TreeFault;
use node_store::id::NodeId;
use node_store::item::{Event, Moment};
use node_store::work::Work;
use plugin_api::fn_visitor::FnVisitor;
use plugin_api::visitor::Visitor;
use std::alloc::{AllocError, Global};
use std::test::Fail;

fn empty_text(alloc: Global) -> Result<Text, AllocError>
    ensures { IfOk result (λ text. text ≡ []) }
{
    match Text::new(alloc, Vec::new(alloc)) {
        Ok(text) => Ok(text),
        Err(Stop::Memory(error)) => Err(error),
        Err(Stop::Fault(_)) => unreachable!(),
    }
}

fn empty_sheet(alloc: Global) -> Result<Work, AllocError> {
    let text = empty_text(alloc)?;
    let block = Block {
        semicolon: false,
        after: None,
    };
    let mut nodes = Vec::new(alloc);
    nodes.push(NodeAt {
        parent: 0,
        text: NodeText::Root { bom: false, block },
        span: Span { start: 0, end: 0 },
    })?;
    Work::from_nodes(alloc, text, nodes)
}

// Puts a new node into a container; false where that was refused.
fn put(work: &mut Work, container: u32, made: Result<NodeId, Stop<TreeFault>>) -> bool {
    match made {
        Ok(node) => append(work, NodeId::new(container), node).is_ok(),
        Err(_) => false,
    }
}

fn put_rule(work: &mut Work, container: u32, selector: &str) -> bool {
    let made = new_rule(work, selector);
    put(work, container, made)
}

fn put_decl(work: &mut Work, container: u32, value: &str) -> bool {
    let made = new_decl(work, "b", value);
    put(work, container, made)
}

fn put_comment(work: &mut Work, container: u32, text: &str) -> bool {
    let made = new_comment(work, text);
    put(work, container, made)
}

fn moment(event: Event, node: u32) -> Moment {
    Moment {
        event,
        node: NodeId::new(node),
    }
}

fn parent_is(work: &Work, node: u32, parent: Option<u32>) -> bool {
    match work.parent(NodeId::new(node)) {
        Ok(found) => found.map(|p| p.number()) == parent,
        Err(_) => false,
    }
}

// The value becomes this one.
fn shortens(alloc: Global, value: &str, want: &str) -> Result<bool, AllocError> {
    let mut work = empty_sheet(alloc)?;
    let made = put_decl(&mut work, 0, value);
    let done = short_hex(alloc, &mut work, moment(Event::Declaration, 1));
    let is_wanted = match work.value_source(NodeId::new(1)) {
        Ok(text) => text == want,
        Err(_) => false,
    };
    Ok(made && done.is_ok() && is_wanted)
}

#[test]
fn colours(rt: HostRuntime) -> Result<(), Fail> {
    for (value, want) in [
        ("#aabbcc", "#abc"),
        ("#AAbbCC", "#AbC"),
        ("#aAbBcC", "#abc"),
        ("#aabbccdd", "#abcd"),
        ("#aabbccd", "#aabbccd"),
        ("#aabbcd", "#aabbcd"),
        ("#aabb", "#aabb"),
        ("#gghhii", "#gghhii"),
        ("url(#aabbcc)", "url(#aabbcc)"),
        ("'#aabbcc'", "'#aabbcc'"),
        ("f(#aabbcc, g(1px #112233", "f(#abc, g(1px #123"),
        ("red/**/#aabbcc", "red/**/#abc"),
        ("red", "red"),
        ("1px/**/solid", "1px/**/solid"),
    ] {
        assert!(rt; shortens(rt.alloc(), value, want)?);
    }
    Ok(())
}

// The child's selector once the rule is left, where it went out of the rule.
fn goes_out(
    alloc: Global,
    rule: &str,
    child: &str,
    want: Option<&str>,
) -> Result<bool, AllocError> {
    let mut work = empty_sheet(alloc)?;
    let made = put_rule(&mut work, 0, rule) && put_decl(&mut work, 1, "c");
    let nested = put_rule(&mut work, 1, child);
    let done = unnest(alloc, &mut work, moment(Event::RuleExit, 1));
    let is_wanted = match (work.selector(NodeId::new(3)), want) {
        (Ok(selector), Some(text)) => selector == text && parent_is(&work, 3, Some(0)),
        (Ok(selector), None) => selector == child && parent_is(&work, 3, Some(1)),
        _ => false,
    };
    Ok(made && nested && done.is_ok() && is_wanted)
}

#[test]
fn rules_that_go_out(rt: HostRuntime) -> Result<(), Fail> {
    for (rule, child, want) in [
        ("a", "&:hover", Some("a:hover")),
        ("a", "&", Some("a")),
        ("a > b", "& .c", Some("a > b .c")),
        ("a", "&-b", None),
        ("a", "&:hover &", None),
        ("a", "&.b, c", None),
        ("a", "b", None),
        ("a, b", "&:hover", None),
        ("", "&:hover", None),
    ] {
        assert!(rt; goes_out(rt.alloc(), rule, child, want)?);
    }
    Ok(())
}

#[test]
fn children_keep_their_order(rt: HostRuntime) -> Result<(), Fail> {
    let mut work = empty_sheet(rt.alloc())?;
    assert!(rt; put_rule(&mut work, 0, "a"));
    assert!(rt; put_rule(&mut work, 1, "&.b"));
    assert!(rt; put_rule(&mut work, 1, "c"));
    assert!(rt; put_rule(&mut work, 1, "&.d"));
    assert!(rt; put_rule(&mut work, 0, "e"));
    let mut visitor = FnVisitor::new(rt.alloc(), Unnest { alloc: rt.alloc() });
    assert!(rt; visitor.visit(&mut work, moment(Event::RuleExit, 1)).is_ok());
    for (place, child) in [1, 2, 4, 5].into_iter().enumerate() {
        assert!(rt;
            matches!(work.child_at(NodeId::new(0), place as u32), Ok(Some(n)) if n.number() == child)
        );
    }
    Ok(())
}

#[test]
fn comments_that_stay(rt: HostRuntime) -> Result<(), Fail> {
    let mut work = empty_sheet(rt.alloc())?;
    assert!(rt; put_comment(&mut work, 0, "!a"));
    assert!(rt; put_comment(&mut work, 0, "!b"));
    assert!(rt; set_raw(&mut work, NodeId::new(1), Raw::Left, "").is_ok());
    let mut visitor = FnVisitor::new(rt.alloc(), DropComment {});
    assert!(rt; visitor.visit(&mut work, moment(Event::Comment, 1)).is_ok());
    assert!(rt; drop_comment(&mut work, moment(Event::Comment, 2)).is_ok());
    assert!(rt; parent_is(&work, 1, Some(0)));
    assert!(rt; parent_is(&work, 2, None));
    Ok(())
}

#[test]
fn empty_rules_go(rt: HostRuntime) -> Result<(), Fail> {
    let mut work = empty_sheet(rt.alloc())?;
    assert!(rt; put_rule(&mut work, 0, "a"));
    assert!(rt; put_rule(&mut work, 1, "b"));
    assert!(rt; drop_empty(&mut work, moment(Event::RuleExit, 1)).is_ok());
    assert!(rt; parent_is(&work, 1, Some(0)));
    let mut visitor = FnVisitor::new(rt.alloc(), DropEmpty {});
    assert!(rt; visitor.visit(&mut work, moment(Event::RuleExit, 2)).is_ok());
    assert!(rt; parent_is(&work, 2, None));
    Ok(())
}

#[test]
fn colours_of_a_visitor(rt: HostRuntime) -> Result<(), Fail> {
    let mut work = empty_sheet(rt.alloc())?;
    assert!(rt; put_decl(&mut work, 0, "#aabbcc"));
    let mut visitor = FnVisitor::new(rt.alloc(), ShortHex { alloc: rt.alloc() });
    assert!(rt;
        visitor
            .visit(&mut work, moment(Event::Declaration, 1))
            .is_ok()
    );
    assert!(rt; matches!(work.value(NodeId::new(1)), Ok("#abc")));
    Ok(())
}
