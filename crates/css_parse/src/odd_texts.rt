// Odd texts, and the fields that the rules of reading give them.
use crate::read::read;
use crate::tests::{shown, text_of};
use std::test::Fail;

#[test]
fn spaces(rt: HostRuntime) -> Result<(), Fail> {
    let table: [(&str, &str); 12] = [
        (";", "0 0-1 root.[;]\n"),
        (";;;", "0 0-3 root.[;;;]\n"),
        ("\t\r\n\u{c}", "0 0-4 root.[\t\r\n\u{c}]\n"),
        ("; ;\n;", "0 0-5 root.[; ;\n;]\n"),
        ("a{;}", "0 0-4 root.[]\n0 0-4 rule[][a][a][].[;]\n"),
        ("a{ ; }", "0 0-6 root.[]\n0 0-6 rule[][a][a][].[ ; ]\n"),
        (";a{}", "0 0-4 root.[]\n0 1-4 rule[;][a][a][].[]\n"),
        ("a{};", "0 0-4 root.[;]\n0 0-3 rule[][a][a][].[]\n"),
        (
            "a{};;b{}",
            "0 0-8 root.[]\n0 0-3 rule[][a][a][].[]\n0 5-8 rule[;;][b][b][].[]\n",
        ),
        (
            "a{b:c; ;d:e}",
            "0 0-12 root.[]\n0 0-12 rule[][a][a][].[]\n1 2-5 decl[][b][:][c][c].[][]\n1 8-11 decl[ ;][d][:][e][e].[][]\n",
        ),
        (
            "a{}/*x*/;/*y*/",
            "0 0-14 root.[]\n0 0-3 rule[][a][a][].[]\n0 3-8 comment[][][x][]\n0 9-14 comment[;][][y][]\n",
        ),
        (
            "/*x*/;a{}",
            "0 0-9 root.[]\n0 0-5 comment[][][x][]\n0 6-9 rule[;][a][a][].[]\n",
        ),
    ];
    for (src, want) in table {
        assert!(rt; src.len() <= 100);
        let text = text_of(rt.alloc(), src).ok().ok_or("a text")?;
        let nodes = read(rt.alloc(), &text).ok().ok_or("nodes")?;
        let got = shown(rt.alloc(), nodes)?;
        assert_eq!(rt; got.as_str(), want);
    }
    Ok(())
}

#[test]
fn comments(rt: HostRuntime) -> Result<(), Fail> {
    let table: [(&str, &str); 14] = [
        ("/**/", "0 0-4 root.[]\n0 0-4 comment[][][][]\n"),
        ("/***/", "0 0-5 root.[]\n0 0-5 comment[][][*][]\n"),
        ("/* ** */", "0 0-8 root.[]\n0 0-8 comment[][ ][**][ ]\n"),
        ("/*a b*/", "0 0-7 root.[]\n0 0-7 comment[][][a b][]\n"),
        ("/*\na\n*/", "0 0-7 root.[]\n0 0-7 comment[][\n][a][\n]\n"),
        ("/*/*/", "0 0-5 root.[]\n0 0-5 comment[][][/][]\n"),
        ("a/*x*/{}", "0 0-8 root.[]\n0 0-8 rule[][a][a][/*x*/].[]\n"),
        (
            "a{/*x*/}",
            "0 0-8 root.[]\n0 0-8 rule[][a][a][].[]\n1 2-7 comment[][][x][]\n",
        ),
        (
            "a{/*x*/b:c}",
            "0 0-11 root.[]\n0 0-11 rule[][a][a][].[]\n1 2-7 comment[][][x][]\n1 7-10 decl[][b][:][c][c].[][]\n",
        ),
        (
            "a{b:c;/*x*/}",
            "0 0-12 root.[]\n0 0-12 rule[][a][a][];[]\n1 2-5 decl[][b][:][c][c].[][]\n1 6-11 comment[][][x][]\n",
        ),
        (
            "a{b:c/*x*/;}",
            "0 0-12 root.[]\n0 0-12 rule[][a][a][];[]\n1 2-10 decl[][b][:][c][c].[][/*x*/]\n",
        ),
        (
            "a{b:/*x*/c}",
            "0 0-11 root.[]\n0 0-11 rule[][a][a][].[]\n1 2-10 decl[][b][:/*x*/][c][c].[][]\n",
        ),
        (
            "a{b/*x*/:c}",
            "0 0-11 root.[]\n0 0-11 rule[][a][a][].[]\n1 2-10 decl[][b][/*x*/:][c][c].[][]\n",
        ),
        (
            "/*x*/a/*y*/b{}",
            "0 0-14 root.[]\n0 0-5 comment[][][x][]\n0 5-14 rule[][a/*y*/b][ab][].[]\n",
        ),
    ];
    for (src, want) in table {
        assert!(rt; src.len() <= 100);
        let text = text_of(rt.alloc(), src).ok().ok_or("a text")?;
        let nodes = read(rt.alloc(), &text).ok().ok_or("nodes")?;
        let got = shown(rt.alloc(), nodes)?;
        assert_eq!(rt; got.as_str(), want);
    }
    Ok(())
}

#[test]
fn at_rules(rt: HostRuntime) -> Result<(), Fail> {
    let table: [(&str, &str); 17] = [
        ("@a", "0 0-2 root.[]\n0 0-2 at[][a][][][][]\n"),
        (
            "@a;b{}",
            "0 0-6 root.[]\n0 0-2 at[][a][][][][]\n0 3-6 rule[][b][b][].[]\n",
        ),
        ("@a{}", "0 0-4 root.[]\n0 0-4 at[][a][][][][].[]\n"),
        ("@a b{}", "0 0-6 root.[]\n0 0-6 at[][a][ ][b][b][].[]\n"),
        ("@a/**/b;", "0 0-8 root;[]\n0 0-7 at[][a][/**/][b][b][]\n"),
        ("@a /**/;", "0 0-8 root;[]\n0 0-7 at[][a][][][][ /**/]\n"),
        ("@a/**/{}", "0 0-8 root.[]\n0 0-8 at[][a][][][][/**/].[]\n"),
        (
            "@a(b){c:d}",
            "0 0-10 root.[]\n0 0-10 at[][a][][(b)][(b)][].[]\n1 6-9 decl[][c][:][d][d].[][]\n",
        ),
        (
            "@a \"b;c\";",
            "0 0-9 root;[]\n0 0-8 at[][a][ ][\"b;c\"][\"b;c\"][]\n",
        ),
        (
            "@a url(b;c);",
            "0 0-12 root;[]\n0 0-11 at[][a][ ][url(b;c)][url(b;c)][]\n",
        ),
        (
            "@a [b;{c}];",
            "0 0-11 root;[]\n0 0-10 at[][a][ ][[b;{c}]][[b;{c}]][]\n",
        ),
        (
            "@A-b\\{c d;",
            "0 0-10 root;[]\n0 0-9 at[][A-b\\{c][ ][d][d][]\n",
        ),
        (
            "@a{@b;}",
            "0 0-7 root.[]\n0 0-7 at[][a][][][][];[]\n1 3-5 at[][b][][][][]\n",
        ),
        (
            "@a{@b c}",
            "0 0-8 root.[]\n0 0-8 at[][a][][][][].[]\n1 3-7 at[][b][ ][c][c][]\n",
        ),
        (
            "@a{b{c:d}}",
            "0 0-10 root.[]\n0 0-10 at[][a][][][][].[]\n1 3-9 rule[][b][b][].[]\n2 5-8 decl[][c][:][d][d].[][]\n",
        ),
        (
            "@--x{a:b}",
            "0 0-9 root.[]\n0 0-9 at[][--x][][][][].[]\n1 5-8 decl[][a][:][b][b].[][]\n",
        ),
        ("@a:b;", "0 0-5 root;[]\n0 0-4 at[][a][][:b][:b][]\n"),
    ];
    for (src, want) in table {
        assert!(rt; src.len() <= 100);
        let text = text_of(rt.alloc(), src).ok().ok_or("a text")?;
        let nodes = read(rt.alloc(), &text).ok().ok_or("nodes")?;
        let got = shown(rt.alloc(), nodes)?;
        assert_eq!(rt; got.as_str(), want);
    }
    Ok(())
}

#[test]
fn selectors(rt: HostRuntime) -> Result<(), Fail> {
    let table: [(&str, &str); 18] = [
        (
            "a:hover{}",
            "0 0-9 root.[]\n0 0-9 rule[][a:hover][a:hover][].[]\n",
        ),
        (
            "a :hover{}",
            "0 0-10 root.[]\n0 0-10 rule[][a :hover][a :hover][].[]\n",
        ),
        (
            ".a#b[c=\"{\"]{}",
            "0 0-13 root.[]\n0 0-13 rule[][.a#b[c=\"{\"]][.a#b[c=\"{\"]][].[]\n",
        ),
        (
            "a[b;c]{}",
            "0 0-8 root.[]\n0 0-8 rule[][a[b;c]][a[b;c]][].[]\n",
        ),
        (
            "a(b{c}d){}",
            "0 0-10 root.[]\n0 0-10 rule[][a(b{c}d)][a(b{c}d)][].[]\n",
        ),
        ("*{}", "0 0-3 root.[]\n0 0-3 rule[][*][*][].[]\n"),
        ("_a{}", "0 0-4 root.[]\n0 0-4 rule[][_a][_a][].[]\n"),
        ("--a{}", "0 0-5 root.[]\n0 0-5 rule[][--a][--a][].[]\n"),
        (
            "--a /**/{}",
            "0 0-10 root.[]\n0 0-10 rule[][--a][--a][ /**/].[]\n",
        ),
        (">a{}", "0 0-4 root.[]\n0 0-4 rule[][>a][>a][].[]\n"),
        ("&:b{}", "0 0-5 root.[]\n0 0-5 rule[][&:b][&:b][].[]\n"),
        (
            "\"a\"{}",
            "0 0-5 root.[]\n0 0-5 rule[][\"a\"][\"a\"][].[]\n",
        ),
        (
            "url(a){}",
            "0 0-8 root.[]\n0 0-8 rule[][url(a)][url(a)][].[]\n",
        ),
        (
            "a\\{b{}",
            "0 0-6 root.[]\n0 0-6 rule[][a\\{b][a\\{b][].[]\n",
        ),
        (")a{}", "0 0-4 root.[]\n0 0-4 rule[][)a][)a][].[]\n"),
        ("a]{}", "0 0-4 root.[]\n0 0-4 rule[][a]][a]][].[]\n"),
        (
            "a:not(.b) c{}",
            "0 0-13 root.[]\n0 0-13 rule[][a:not(.b) c][a:not(.b) c][].[]\n",
        ),
        (
            "a:nol(b){}",
            "0 0-10 root.[]\n0 0-10 rule[][a:nol(b)][a:nol(b)][].[]\n",
        ),
    ];
    for (src, want) in table {
        assert!(rt; src.len() <= 100);
        let text = text_of(rt.alloc(), src).ok().ok_or("a text")?;
        let nodes = read(rt.alloc(), &text).ok().ok_or("nodes")?;
        let got = shown(rt.alloc(), nodes)?;
        assert_eq!(rt; got.as_str(), want);
    }
    Ok(())
}

#[test]
fn declarations(rt: HostRuntime) -> Result<(), Fail> {
    let table: [(&str, &str); 31] = [
        ("a:b", "0 0-3 root.[]\n0 0-3 decl[][a][:][b][b].[][]\n"),
        ("a:b;", "0 0-4 root;[]\n0 0-3 decl[][a][:][b][b].[][]\n"),
        ("a:;", "0 0-3 root;[]\n0 0-2 decl[][a][:][][].[][]\n"),
        ("a:", "0 0-2 root.[]\n0 0-2 decl[][a][:][][].[][]\n"),
        (
            "a{b::c}",
            "0 0-7 root.[]\n0 0-7 rule[][a][a][].[]\n1 2-6 decl[][b][:][:c][:c].[][]\n",
        ),
        (
            "a{b:c:d}",
            "0 0-8 root.[]\n0 0-8 rule[][a][a][].[]\n1 2-7 decl[][b][:][c:d][c:d].[][]\n",
        ),
        ("*a:b", "0 0-4 root.[]\n0 1-4 decl[*][a][:][b][b].[][]\n"),
        ("_a:b", "0 0-4 root.[]\n0 1-4 decl[_][a][:][b][b].[][]\n"),
        ("__a:b", "0 0-5 root.[]\n0 1-5 decl[_][_a][:][b][b].[][]\n"),
        ("_:b", "0 0-3 root.[]\n0 0-3 decl[][_][:][b][b].[][]\n"),
        (
            "\\*a:b",
            "0 0-5 root.[]\n0 0-5 decl[][\\*a][:][b][b].[][]\n",
        ),
        (
            "a: b c ;",
            "0 0-8 root;[]\n0 0-7 decl[][a][: ][b c][b c].[][ ]\n",
        ),
        (
            "a:\"b;c\"",
            "0 0-7 root.[]\n0 0-7 decl[][a][:][\"b;c\"][\"b;c\"].[][]\n",
        ),
        (
            "a:'{'",
            "0 0-5 root.[]\n0 0-5 decl[][a][:]['{']['{'].[][]\n",
        ),
        (
            "a:b,c",
            "0 0-5 root.[]\n0 0-5 decl[][a][:][b,c][b,c].[][]\n",
        ),
        ("--a:", "0 0-4 root.[]\n0 0-4 decl[][--a][:][][].[][]\n"),
        ("--a:;", "0 0-5 root;[]\n0 0-4 decl[][--a][:][][].[][]\n"),
        (
            "--a:{}",
            "0 0-6 root.[]\n0 0-6 decl[][--a][:][{}][{}].[][]\n",
        ),
        (
            "--a:{;}",
            "0 0-7 root.[]\n0 0-7 decl[][--a][:][{;}][{;}].[][]\n",
        ),
        (
            "--a:({)})",
            "0 0-9 root.[]\n0 0-9 decl[][--a][:][({)})][({)})].[][]\n",
        ),
        (
            "--a :{b}c;",
            "0 0-10 root;[]\n0 0-9 decl[][--a][ :][{b}c][{b}c].[][]\n",
        ),
        (
            "--a:b{c}d;",
            "0 0-10 root;[]\n0 0-9 decl[][--a][:][b{c}d][b{c}d].[][]\n",
        ),
        ("-a:b", "0 0-4 root.[]\n0 0-4 decl[][-a][:][b][b].[][]\n"),
        ("a:@b", "0 0-4 root.[]\n0 0-4 decl[][a][:][@b][@b].[][]\n"),
        (
            "a:b@c",
            "0 0-5 root.[]\n0 0-5 decl[][a][:][b@c][b@c].[][]\n",
        ),
        (
            "a\\:b:c",
            "0 0-6 root.[]\n0 0-6 decl[][a\\:b][:][c][c].[][]\n",
        ),
        ("1:2", "0 0-3 root.[]\n0 0-3 decl[][1][:][2][2].[][]\n"),
        (
            "a:b(c, (d));",
            "0 0-12 root;[]\n0 0-11 decl[][a][:][b(c, (d))][b(c, (d))].[][]\n",
        ),
        (
            "a:b(c;d);",
            "0 0-9 root;[]\n0 0-8 decl[][a][:][b(c;d)][b(c;d)].[][]\n",
        ),
        (
            "a:b)c;",
            "0 0-6 root;[]\n0 0-5 decl[][a][:][b)c][b)c].[][]\n",
        ),
        (
            "a:url(b c);d:hsl(e);",
            "0 0-20 root;[]\n0 0-10 decl[][a][:][url(b c)][url(b c)].[][]\n0 11-19 decl[][d][:][hsl(e)][hsl(e)].[][]\n",
        ),
    ];
    for (src, want) in table {
        assert!(rt; src.len() <= 100);
        let text = text_of(rt.alloc(), src).ok().ok_or("a text")?;
        let nodes = read(rt.alloc(), &text).ok().ok_or("nodes")?;
        let got = shown(rt.alloc(), nodes)?;
        assert_eq!(rt; got.as_str(), want);
    }
    Ok(())
}
