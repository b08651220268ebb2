// Calls on sheets that were read.
ghost use Rattle.std.specs.Prelude.{IfSome, ◌<◌, ◌≤◌, length, encode_utf8_all};
ghost use Rattle.std.specs.Str.{IsCharBoundary};
ghost use Rattle.node_store.specs.Fresh.{IsFresh};

use crate::order::sort_sites;
use crate::sites::{push_message, push_site};
use crate::{blocks, keyframes, reads};
use css_parse::parse::parse;
use css_text::lexer::Span;
use css_text::text::{Place, Text};
use css_text::txt::Txt;
use lint_config::found::{Repair, Site};
use lint_config::rule::Rule;
use node_store::id::NodeId;
use node_store::work::Work;
use std::alloc::{AllocError, Global};
use std::test::Fail;

fn shown(alloc: Global, site: &Site) -> Result<String, AllocError> {
    let Place { line, column } = site.place;
    let (name, text) = (site.rule.name(), site.text.as_str());
    let is_mended = site.repair.is_some();
    format!(in alloc; "{name} {line}:{column} {text} {is_mended}")
}

fn sheet(alloc: Global, bytes: Vec<u8>) -> Option<Work>
    requires { length bytes.items ≤ 1000 }
    ensures { IfSome result (λ work. IsFresh work) }
{
    match Text::new(alloc, bytes) {
        Ok(text) => match parse(alloc, text) {
            Ok(work) => Some(work),
            Err(_) => None,
        },
        Err(_) => None,
    }
}

/// What the calls answer of a node: its parent; where its body, its `{` and its value start; whether it is a
/// block, the root, an at-rule and a keyframes at-rule.
type Answers = (Option<NodeId>, [u32; 3], [bool; 4]);

fn answers(work: &Work, n: NodeId) -> Answers
    requires fresh { IsFresh work.now }
    requires given { n < length work.now.nodes }
{
    let text = reads::text_of(work, n);
    (
        reads::parent_of(work, n),
        [
            reads::start_of(work, n),
            blocks::brace_of(work, n),
            blocks::value_start(work, n),
        ],
        [
            blocks::is_block(text),
            blocks::is_root(text),
            blocks::is_at_rule(text),
            keyframes::is_keyframes(text),
        ],
    )
}

#[test]
fn parts_stand_at_bytes(rt: HostRuntime) -> Result<(), Fail> {
    let css = "\u{feff}@KeyFrames \u{e9}{\n a { b : c } }/**/@-o2-keyframes x;";
    let bytes = css.as_bytes().to_vec(rt.alloc())?;
    assert!(rt; bytes.len() <= 1000);
    let work = sheet(rt.alloc(), bytes).ok_or("a sheet")?;
    let table = [
        (0, None, [0, 0, 0], [false, true, false, false]),
        (
            1,
            Some(NodeId::new(0)),
            [3, 16, 3],
            [true, false, true, true],
        ),
        (
            2,
            Some(NodeId::new(1)),
            [19, 21, 19],
            [true, false, false, false],
        ),
        (
            3,
            Some(NodeId::new(2)),
            [23, 23, 27],
            [false, false, false, false],
        ),
        (
            4,
            Some(NodeId::new(0)),
            [32, 32, 32],
            [false, false, false, false],
        ),
        (
            5,
            Some(NodeId::new(0)),
            [36, 52, 36],
            [false, false, true, false],
        ),
    ];
    for (number, parent, places, kinds) in table {
        assert!(rt; number < work.node_total());
        assert_eq!(rt;
            answers(&work, NodeId::new(number)),
            (parent, places, kinds)
        );
    }
    Ok(())
}

/// Three sites at the byte.
fn push_three(alloc: Global, sites: &mut Vec<Site>, work: &Work, at: u32) -> Result<(), AllocError>
    requires { IsCharBoundary (encode_utf8_all work.now.text) at }
{
    push_message(alloc, sites, work, Rule::CommentNoEmpty, at, "x")?;
    push_message(alloc, sites, work, Rule::BlockNoEmpty, at, "y")?;
    let repair = Repair {
        span: Span { start: 1, end: 2 },
        text: Txt::new(alloc, "")?,
    };
    let text = Txt::new(alloc, "xy")?;
    push_site(sites, work, Rule::BlockNoEmpty, at, text, Some(repair))
}

#[test]
fn sites_are_listed_in_order(rt: HostRuntime) -> Result<(), Fail> {
    let bytes = b"a{}\nb{}".to_vec(rt.alloc())?;
    assert!(rt; bytes.len() <= 1000);
    let work = sheet(rt.alloc(), bytes).ok_or("a sheet")?;
    let mut sites = Vec::new(rt.alloc());
    for at in [5, 1] {
        assert!(rt; work.text().as_str().is_char_boundary(at as usize));
        push_three(rt.alloc(), &mut sites, &work, at)?;
    }
    sort_sites(&mut sites)?;
    let want = [
        "block-no-empty 1:2 xy true",
        "block-no-empty 1:2 y false",
        "comment-no-empty 1:2 x false",
        "block-no-empty 2:2 xy true",
        "block-no-empty 2:2 y false",
        "comment-no-empty 2:2 x false",
    ];
    assert_eq!(rt; sites.len(), want.len());
    for (site, line) in sites.iter().zip(want) {
        assert_eq!(rt; shown(rt.alloc(), site)?.as_str(), line);
    }
    Ok(())
}
