// Values and their parts, and words with their numbers.
use crate::number::number_and_unit;
use crate::parse::parse_value;
use crate::part::{ValueKind, ValuePart};
use crate::print::print_value;
use css_text::lexer::Span;
use std::alloc::{AllocError, Global};
use std::process::Abort;
use std::test::Fail;

fn letter(kind: ValueKind) -> &'static str {
    match kind {
        ValueKind::Space => "s",
        ValueKind::Comment => "c",
        ValueKind::Quoted => "q",
        ValueKind::Url => "u",
        ValueKind::Mark => "m",
        ValueKind::Word => "w",
        ValueKind::Function => "F",
    }
}

// Each part as its letter, its first byte and its text; of a Function also the parts inside it, and `!` where it isn't closed.
fn tell(alloc: Global, told: &mut String, parts: &[ValuePart]) -> Result<(), AllocError> {
    for part in parts {
        let front = format!(in alloc; "{}{}<{}>", letter(part.kind), part.at, part.text.as_str())?;
        told.push_str(front.as_str())?;
        if part.kind == ValueKind::Function {
            told.push('{')?;
            tell(alloc, told, &part.inner)?;
            told.push('}')?;
        }
        if !part.closed {
            told.push('!')?;
        }
    }
    Ok(())
}

// The parts of the text are these, and print to it.
fn reads(rt: &impl Abort, alloc: Global, src: &str, want: &str) -> Result<(), Fail> {
    let parts = parse_value(alloc, src)?;
    let mut told = String::new(alloc);
    tell(alloc, &mut told, &parts)?;
    assert_eq!(rt; told.as_str(), want, "in {src}");
    assert_eq!(rt; print_value(alloc, &parts)?.as_str(), src);
    Ok(())
}

#[test]
fn values(rt: HostRuntime) -> Result<(), Fail> {
    let rows = [
        ("", ""),
        ("calc(1px", "F0<calc>{w5<1px>}!"),
        (
            "calc(100% - (2 * var(--x, 3px)))",
            "F0<calc>{w5<100%>s9< >w10<->s11< >F12<>{w13<2>s14< >w15<*>s16< >F17<var>{w21<--x>m24<,>s25< >w26<3px>}}}",
        ),
        (
            "italic .8em/1.2 Arial,\"B C\",serif",
            "w0<italic>s6< >w7<.8em>m11</>w12<1.2>s15< >w16<Arial>m21<,>q22<\"B C\">m27<,>w28<serif>",
        ),
        (
            "linear-gradient(to right,rgba(0,0,0,.5) 0%,#fff)",
            "F0<linear-gradient>{w16<to>s18< >w19<right>m24<,>F25<rgba>{w30<0>m31<,>w32<0>m33<,>w34<0>m35<,>w36<.5>}s39< >w40<0%>m42<,>w43<#fff>}",
        ),
        (
            "url(data:image/png;base64,iVB+/=) x",
            "u0<url(data:image/png;base64,iVB+/=)>s33< >w34<x>",
        ),
        ("url( 'a' )", "F0<url>{s4< >q5<'a'>s8< >}"),
        ("a:URL(b\\)c", "w0<a>m1<:>u2<URL(b\\)c>"),
        ("url( ", "u0<url( >"),
        ("my-url(x)", "F0<my-url>{w7<x>}"),
        ("{a:[b];c}", "m0<{>w1<a>m2<:>m3<[>w4<b>m5<]>m6<;>w7<c>m8<}>"),
        ("a)b(", "w0<a>m1<)>F2<b>{}!"),
        ("a(b(c)", "F0<a>{F2<b>{w4<c>}}!"),
        ("()(", "F0<>{}F2<>{}!"),
        ("a\\ b\\(c(d)", "F0<a\\ b\\(c>{w8<d>}"),
        ("/*a*//**", "c0</*a*/>c5</**>"),
        ("/ */", "m0</>s1< >w2<*>m3</>"),
        ("'a\\'b", "q0<'a\\'b>"),
        ("a\\", "w0<a\\>"),
        ("@a!b#c*", "w0<@a!b#c*>"),
        (
            "\u{feff}1 \u{e9}'\u{1f600}",
            "w0<\u{feff}1>s4< >w5<\u{e9}>q7<'\u{1f600}>",
        ),
    ];
    for (src, want) in rows {
        reads(&rt, rt.alloc(), src, want)?;
    }
    Ok(())
}

// Of 101 open parentheses the last is a Mark inside 100 Functions.
#[test]
fn deep(rt: HostRuntime) -> Result<(), Fail> {
    let mut src = String::new(rt.alloc());
    let mut want = String::new(rt.alloc());
    for at in 0..100 {
        src.push('(')?;
        want.push_str(format!(in rt.alloc(); "F{at}<>{{")?.as_str())?;
    }
    src.push('(')?;
    want.push_str("m100<(>")?;
    for _function in 0..100 {
        want.push_str("}!")?;
    }
    reads(&rt, rt.alloc(), src.as_str(), want.as_str())
}

// A word's number ends at the first place and its unit at the second; or it has none.
#[test]
fn numbers(rt: HostRuntime) -> Result<(), Fail> {
    let rows = [
        ("-.5E3px", Some((5, 7))),
        ("1em", Some((1, 3))),
        ("0", Some((1, 1))),
        ("+1.50e-2%", Some((8, 9))),
        ("1e5Q", Some((3, 4))),
        ("1e", Some((1, 2))),
        ("1.", None),
        ("e3", None),
        ("1e+", None),
        ("1.5.5", None),
        ("10%%", None),
        ("1-", None),
        ("+", None),
        ("%", None),
        ("", None),
        ("1\u{e9}", None),
    ];
    for (word, want) in rows {
        let spans = want.map(|(end, last)| (
            Span { start: 0, end },
            Span {
                start: end,
                end: last,
            },
        ));
        assert_eq!(rt; number_and_unit(word), spans, "of {word}");
    }
    Ok(())
}
