// What texts read as, and which faults they have.
ghost use Rattle.std.specs.Prelude.{◌≤◌, length};

use crate::parse::parse;
use crate::read::read;
use css_text::stop::{Stop, TextFault};
use css_text::text::Text;
use css_tree::fault::SyntaxKind;
use css_tree::node::{Block, NodeText};
use node_rows::node_list::NodeList;
use std::alloc::{AllocError, Global};
use std::test::Fail;

/// The text with these characters.
pub fn text_of(alloc: Global, src: &str) -> Result<Text, Stop<TextFault>>
    requires { length src.now ≤ 10000 }
{
    match src.as_bytes().to_vec(alloc) {
        Ok(bytes) => Text::new(alloc, bytes),
        Err(error) => Err(Stop::Memory(error)),
    }
}

// The texts, each in brackets.
fn push_all(out: &mut String, texts: &[&str]) -> Result<(), AllocError> {
    for text in texts {
        out.push_str("[")?;
        out.push_str(text)?;
        out.push_str("]")?;
    }
    Ok(())
}

// A container's flag and its raw.
fn push_block(out: &mut String, block: &Block) -> Result<(), AllocError> {
    out.push_str(if block.semicolon { ";" } else { "." })?;
    match &block.after {
        Some(after) => push_all(out, &[after.as_str()]),
        None => out.push_str("-"),
    }
}

// The fields and raws of a node.
fn push_text(out: &mut String, text: &NodeText) -> Result<(), AllocError> {
    match text {
        NodeText::Root { bom, block } => {
            out.push_str(if *bom { "bom" } else { "root" })?;
            push_block(out, block)
        }
        NodeText::AtRule {
            before,
            name,
            after_name,
            params,
            between,
            block,
        } => {
            out.push_str("at")?;
            if let Some(before) = before {
                push_all(out, &[before.as_str()])?;
            }
            push_all(out, &[name.as_str(), after_name.as_str()])?;
            push_all(out, &[params.source.as_str(), params.clean.as_str()])?;
            push_all(out, &[between.as_str()])?;
            match block {
                Some(block) => push_block(out, block),
                None => Ok(()),
            }
        }
        NodeText::Rule {
            before,
            selector,
            between,
            block,
        } => {
            out.push_str("rule")?;
            if let Some(before) = before {
                push_all(out, &[before.as_str()])?;
            }
            push_all(out, &[selector.source.as_str(), selector.clean.as_str()])?;
            push_all(out, &[between.as_str()])?;
            push_block(out, block)
        }
        NodeText::Declaration {
            before,
            prop,
            between,
            value,
            important,
            important_raw,
            tail,
        } => {
            out.push_str("decl")?;
            if let Some(before) = before {
                push_all(out, &[before.as_str()])?;
            }
            push_all(out, &[prop.as_str(), between.as_str()])?;
            push_all(out, &[value.source.as_str(), value.clean.as_str()])?;
            out.push_str(if *important { "!" } else { "." })?;
            push_all(out, &[important_raw.as_str(), tail.as_str()])
        }
        NodeText::Comment {
            before,
            left,
            text,
            right,
        } => {
            out.push_str("comment")?;
            if let Some(before) = before {
                push_all(out, &[before.as_str()])?;
            }
            push_all(out, &[left.as_str(), text.as_str(), right.as_str()])
        }
    }
}

/// Each node: its parent, its span, its fields and raws.
pub fn shown(alloc: Global, nodes: NodeList) -> Result<String, AllocError> {
    let mut out = String::new(alloc);
    let rows = nodes.into_rows();
    rows.facts();
    for n in 0..rows.len() as u32 {
        let parent = rows.parent(n).unwrap_or(0);
        if let Some(span) = rows.span(n) {
            let place = format!(in alloc; "{parent} {}-{} ", span.start, span.end)?;
            out.push_str(place.as_str())?;
        }
        push_text(&mut out, rows.text(n))?;
        out.push_str("\n")?;
    }
    Ok(out)
}

#[test]
fn trees(rt: HostRuntime) -> Result<(), Fail> {
    let table: [(&str, &str); 42] = [
        ("", "0 0-0 root.[]\n"),
        (" \n", "0 0-2 root.[ \n]\n"),
        ("\u{feff}a{}", "0 0-6 bom.[]\n0 3-6 rule[][a][a][].[]\n"),
        (
            "a{color:red;;/*x*/}",
            "0 0-19 root.[]\n0 0-19 rule[][a][a][];[]\n1 2-11 decl[][color][:][red][red].[][]\n1 13-18 comment[;][][x][]\n",
        ),
        (
            "a { *zoom : 1 ! Important }",
            "0 0-27 root.[]\n0 0-27 rule[][a][a][ ].[ ]\n1 5-25 decl[ *][zoom][ : ][1][1]![ ! Important][]\n",
        ),
        (
            "a{b: !important;}",
            "0 0-17 root.[]\n0 0-17 rule[][a][a][];[]\n1 2-15 decl[][b][: ][][]![!important][]\n",
        ),
        (
            ":root{--x:{a:b};}",
            "0 0-17 root.[]\n0 0-17 rule[][:root][:root][];[]\n1 6-15 decl[][--x][:][{a:b}][{a:b}].[][]\n",
        ),
        (
            "a{b:url(x;y{)}",
            "0 0-14 root.[]\n0 0-14 rule[][a][a][].[]\n1 2-13 decl[][b][:][url(x;y{)][url(x;y{)].[][]\n",
        ),
        (
            "@media /*a*/ x /*b*/ {}",
            "0 0-23 root.[]\n0 0-23 at[][media][ /*a*/ ][x][x][ /*b*/ ].[]\n",
        ),
        ("@a;", "0 0-3 root;[]\n0 0-2 at[][a][][][][]\n"),
        (
            "@a {b:c}",
            "0 0-8 root.[]\n0 0-8 at[][a][][][][ ].[]\n1 4-7 decl[][b][:][c][c].[][]\n",
        ),
        (
            "@a b /**/ c;d:e",
            "0 0-15 root.[]\n0 0-11 at[][a][ ][b /**/ c][b  c][]\n0 12-15 decl[][d][:][e][e].[][]\n",
        ),
        ("/* a */", "0 0-7 root.[]\n0 0-7 comment[][ ][a][ ]\n"),
        ("/*  */", "0 0-6 root.[]\n0 0-6 comment[][  ][][]\n"),
        (";; a{}; ", "0 0-8 root.[; ]\n0 3-6 rule[;; ][a][a][].[]\n"),
        ("{}", "0 0-2 root.[]\n0 0-2 rule[][][][].[]\n"),
        (
            "\t\n\u{c}\r a{}",
            "0 0-8 root.[]\n0 5-8 rule[\t\n\u{c}\r ][a][a][].[]\n",
        ),
        (
            "a{ b{} \n}\t",
            "0 0-10 root.[\t]\n0 0-9 rule[][a][a][].[ \n]\n1 3-6 rule[ ][b][b][].[]\n",
        ),
        (
            "a /*x*/ {}",
            "0 0-10 root.[]\n0 0-10 rule[][a][a][ /*x*/ ].[]\n",
        ),
        (
            "a{b:c /*x*/}",
            "0 0-12 root.[]\n0 0-12 rule[][a][a][].[]\n1 2-5 decl[][b][:][c][c].[][]\n1 6-11 comment[ ][][x][]\n",
        ),
        (
            "a{b:c /*x*/;}",
            "0 0-13 root.[]\n0 0-13 rule[][a][a][];[]\n1 2-11 decl[][b][:][c][c].[][ /*x*/]\n",
        ),
        (
            "a{b: ;}",
            "0 0-7 root.[]\n0 0-7 rule[][a][a][];[]\n1 2-5 decl[][b][: ][][].[][]\n",
        ),
        (
            "a{b:c!IMPORTANT}",
            "0 0-16 root.[]\n0 0-16 rule[][a][a][].[]\n1 2-15 decl[][b][:][c][c]![!IMPORTANT][]\n",
        ),
        (
            "a{b:c\\!important}",
            "0 0-17 root.[]\n0 0-17 rule[][a][a][].[]\n1 2-16 decl[][b][:][c\\!important][c\\!important].[][]\n",
        ),
        (
            "a{b:c !/*x*/important }",
            "0 0-23 root.[]\n0 0-23 rule[][a][a][].[ ]\n1 2-21 decl[][b][:][c][c]![ !/*x*/important][]\n",
        ),
        (
            "a{b:!important c}",
            "0 0-17 root.[]\n0 0-17 rule[][a][a][].[]\n1 2-16 decl[][b][:][!important c][!important c].[][]\n",
        ),
        (
            "a{_b:c;*:d}",
            "0 0-11 root.[]\n0 0-11 rule[][a][a][].[]\n1 3-6 decl[_][b][:][c][c].[][]\n1 7-10 decl[][*][:][d][d].[][]\n",
        ),
        (
            "a{b:c;d{}}",
            "0 0-10 root.[]\n0 0-10 rule[][a][a][].[]\n1 2-5 decl[][b][:][c][c].[][]\n1 6-9 rule[][d][d][].[]\n",
        ),
        (
            "a{--x:hover{}}",
            "0 0-14 root.[]\n0 0-14 rule[][a][a][].[]\n1 2-13 decl[][--x][:][hover{}][hover{}].[][]\n",
        ),
        (
            "a{--x {}}",
            "0 0-9 root.[]\n0 0-9 rule[][a][a][].[]\n1 2-8 rule[][--x][--x][ ].[]\n",
        ),
        (
            "a{b:(c;d)}",
            "0 0-10 root.[]\n0 0-10 rule[][a][a][].[]\n1 2-9 decl[][b][:][(c;d)][(c;d)].[][]\n",
        ),
        (
            "a{b:[c}]}",
            "0 0-9 root.[]\n0 0-9 rule[][a][a][].[]\n1 2-8 decl[][b][:][[c}]][[c}]].[][]\n",
        ),
        (
            "a{b:c)}",
            "0 0-7 root.[]\n0 0-7 rule[][a][a][].[]\n1 2-6 decl[][b][:][c)][c)].[][]\n",
        ),
        (
            "a,b c>d{}",
            "0 0-9 root.[]\n0 0-9 rule[][a,b c>d][a,b c>d][].[]\n",
        ),
        (
            "a{b:c/**/d}",
            "0 0-11 root.[]\n0 0-11 rule[][a][a][].[]\n1 2-10 decl[][b][:][c/**/d][cd].[][]\n",
        ),
        (
            "a/**/:b{}",
            "0 0-9 root.[]\n0 0-9 rule[][a/**/:b][a:b][].[]\n",
        ),
        (
            "a{b /*x*/ : /*y*/ c}",
            "0 0-20 root.[]\n0 0-20 rule[][a][a][].[]\n1 2-19 decl[][b][ /*x*/ : /*y*/ ][c][c].[][]\n",
        ),
        (
            "@import 'a' ;",
            "0 0-13 root;[]\n0 0-12 at[][import][ ]['a']['a'][ ]\n",
        ),
        ("@a b ", "0 0-5 root.[ ]\n0 0-4 at[][a][ ][b][b][]\n"),
        (
            "a{@b c /*x*/ }",
            "0 0-14 root.[]\n0 0-14 rule[][a][a][].[ ]\n1 2-6 at[][b][ ][c][c][]\n1 7-12 comment[ ][][x][]\n",
        ),
        (
            "a{b:c;;;}",
            "0 0-9 root.[]\n0 0-9 rule[][a][a][];[;;]\n1 2-5 decl[][b][:][c][c].[][]\n",
        ),
        (
            "a{}\r\n/*\u{1f600}*/b{}",
            "0 0-16 root.[]\n0 0-3 rule[][a][a][].[]\n0 5-13 comment[\r\n][][\u{1f600}][]\n0 13-16 rule[][b][b][].[]\n",
        ),
    ];
    for (src, want) in table {
        assert!(rt; src.len() <= 100);
        let text = text_of(rt.alloc(), src).ok().ok_or("a text")?;
        let nodes = read(rt.alloc(), &text).ok().ok_or("nodes")?;
        let got = shown(rt.alloc(), nodes)?;
        assert_eq!(rt; got.as_str(), want);
    }
    Ok(())
}

#[test]
fn faults(rt: HostRuntime) -> Result<(), Fail> {
    use SyntaxKind::{
        AtRuleWithoutName, UnclosedBlock, UnclosedBracket, UnclosedComment, UnclosedString,
        UnclosedUrl, UnexpectedClose, UnknownWord,
    };
    let table: [(&str, SyntaxKind, u32, u32, u32); 29] = [
        ("}", UnexpectedClose, 0, 1, 1),
        ("a{", UnclosedBlock, 1, 1, 2),
        ("a{b", UnknownWord, 2, 1, 3),
        ("@{}", AtRuleWithoutName, 0, 1, 1),
        ("@;", AtRuleWithoutName, 0, 1, 1),
        ("a{b:(c}", UnclosedBracket, 4, 1, 5),
        ("a{b:([c}", UnclosedBracket, 4, 1, 5),
        ("a{(}", UnclosedBracket, 2, 1, 3),
        ("a:not(b{}", UnclosedBracket, 5, 1, 6),
        ("--x:{", UnclosedBracket, 4, 1, 5),
        ("/*", UnclosedComment, 0, 1, 1),
        ("a:b /*", UnclosedComment, 4, 1, 5),
        ("a{b:url(x", UnclosedUrl, 4, 1, 5),
        ("a{b:\"x", UnclosedString, 4, 1, 5),
        ("b}", UnknownWord, 0, 1, 1),
        ("b:c}", UnexpectedClose, 3, 1, 4),
        ("a{b:c}}", UnexpectedClose, 6, 1, 7),
        ("a{}\n}", UnexpectedClose, 4, 2, 1),
        ("a{b{}c}", UnknownWord, 5, 1, 6),
        ("a{b:c;d}", UnknownWord, 6, 1, 7),
        ("a\nb", UnknownWord, 0, 1, 1),
        ("a b;", UnknownWord, 0, 1, 1),
        (",;", UnknownWord, 0, 1, 1),
        ("a{ (b);}", UnknownWord, 3, 1, 4),
        ("a{\n b{", UnclosedBlock, 5, 2, 3),
        ("--x{", UnclosedBlock, 3, 1, 4),
        ("\u{feff}}", UnexpectedClose, 3, 1, 1),
        ("\u{1f600}:b}", UnexpectedClose, 6, 1, 5),
        ("'\u{e9}\n'{x;", UnknownWord, 6, 2, 3),
    ];
    for (src, kind, at, line, column) in table {
        assert!(rt; src.len() <= 100);
        let text = text_of(rt.alloc(), src).ok().ok_or("a text")?;
        match parse(rt.alloc(), text) {
            Ok(_) => assert!(rt; false, "{src} is read"),
            Err(Stop::Fault(fault)) => {
                assert_eq!(rt; (fault.kind, fault.at), (kind, at), "of {src}");
                assert_eq!(rt;
                    (fault.place.line, fault.place.column),
                    (line, column),
                    "of {src}"
                );
            }
            Err(Stop::Memory(error)) => return Err(error.into()),
        }
    }
    Ok(())
}

// As many blocks inside one another.
fn blocks(alloc: Global, depth: u32) -> Result<String, AllocError> {
    let mut src = String::new(alloc);
    for _open in 0..depth {
        src.push_str("a{")?;
    }
    for _close in 0..depth {
        src.push_str("}")?;
    }
    Ok(src)
}

#[test]
fn depths(rt: HostRuntime) -> Result<(), Fail> {
    let table = [(1, None), (200, None), (201, Some(401)), (300, Some(401))];
    for (depth, want) in table {
        let src = blocks(rt.alloc(), depth)?;
        assert!(rt; src.len() <= 1000);
        let text = text_of(rt.alloc(), src.as_str()).ok().ok_or("a text")?;
        match parse(rt.alloc(), text) {
            Ok(work) => {
                assert_eq!(rt; want, None);
                assert_eq!(rt; work.node_total(), depth + 1);
            }
            Err(Stop::Fault(fault)) => {
                assert_eq!(rt; fault.kind, SyntaxKind::TooDeep);
                assert_eq!(rt; (want, fault.place.column), (Some(fault.at), 402));
            }
            Err(Stop::Memory(error)) => return Err(error.into()),
        }
    }
    Ok(())
}
