// Important marks in odd places, and what stands around them.
use crate::read::read;
use crate::tests::{shown, text_of};
use std::test::Fail;

#[test]
fn marks(rt: HostRuntime) -> Result<(), Fail> {
    let table: [(&str, &str); 22] = [
        (
            "a:b!important",
            "0 0-13 root.[]\n0 0-13 decl[][a][:][b][b]![!important][]\n",
        ),
        (
            "a:b !important;",
            "0 0-15 root;[]\n0 0-14 decl[][a][:][b][b]![ !important][]\n",
        ),
        (
            "a:b! important",
            "0 0-14 root.[]\n0 0-14 decl[][a][:][b][b]![! important][]\n",
        ),
        (
            "a:b ! /*x*/ IMPORTANT",
            "0 0-21 root.[]\n0 0-21 decl[][a][:][b][b]![ ! /*x*/ IMPORTANT][]\n",
        ),
        (
            "a:!important",
            "0 0-12 root.[]\n0 0-12 decl[][a][:][][]![!important][]\n",
        ),
        (
            "a: ! important",
            "0 0-14 root.[]\n0 0-14 decl[][a][: ][][]![! important][]\n",
        ),
        (
            "a:b !important c",
            "0 0-16 root.[]\n0 0-16 decl[][a][:][b !important c][b !important c].[][]\n",
        ),
        (
            "a:b important",
            "0 0-13 root.[]\n0 0-13 decl[][a][:][b important][b important].[][]\n",
        ),
        (
            "a:b \\!important",
            "0 0-15 root.[]\n0 0-15 decl[][a][:][b \\!important][b \\!important].[][]\n",
        ),
        (
            "a:b !\\important",
            "0 0-15 root.[]\n0 0-15 decl[][a][:][b !\\important][b !\\important].[][]\n",
        ),
        (
            "a:b!!important",
            "0 0-14 root.[]\n0 0-14 decl[][a][:][b!][b!]![!important][]\n",
        ),
        (
            "a:b !important!important",
            "0 0-24 root.[]\n0 0-24 decl[][a][:][b !important][b !important]![!important][]\n",
        ),
        (
            "a:b \"!important\"",
            "0 0-16 root.[]\n0 0-16 decl[][a][:][b \"!important\"][b \"!important\"].[][]\n",
        ),
        (
            "a:b!/**/important",
            "0 0-17 root.[]\n0 0-17 decl[][a][:][b][b]![!/**/important][]\n",
        ),
        (
            "a:b/**/!important",
            "0 0-17 root.[]\n0 0-17 decl[][a][:][b][b]![/**/!important][]\n",
        ),
        (
            "a:b !important /**/;",
            "0 0-20 root;[]\n0 0-19 decl[][a][:][b][b]![ !important][ /**/]\n",
        ),
        (
            "--a:{}!important",
            "0 0-16 root.[]\n0 0-16 decl[][--a][:][{}][{}]![!important][]\n",
        ),
        (
            "a:b,!important",
            "0 0-14 root.[]\n0 0-14 decl[][a][:][b,][b,]![!important][]\n",
        ),
        (
            "a:url(x)!important",
            "0 0-18 root.[]\n0 0-18 decl[][a][:][url(x)][url(x)]![!important][]\n",
        ),
        (
            "a:b!importantx",
            "0 0-14 root.[]\n0 0-14 decl[][a][:][b!importantx][b!importantx].[][]\n",
        ),
        (
            "a:b(c) !important;",
            "0 0-18 root;[]\n0 0-17 decl[][a][:][b(c)][b(c)]![ !important][]\n",
        ),
        (
            "a:b(c !important);",
            "0 0-18 root;[]\n0 0-17 decl[][a][:][b(c !important)][b(c !important)].[][]\n",
        ),
    ];
    for (src, want) in table {
        assert!(rt; src.len() <= 100);
        let text = text_of(rt.alloc(), src).ok().ok_or("a text")?;
        let nodes = read(rt.alloc(), &text).ok().ok_or("nodes")?;
        let got = shown(rt.alloc(), nodes)?;
        assert_eq!(rt; got.as_str(), want);
    }
    Ok(())
}
