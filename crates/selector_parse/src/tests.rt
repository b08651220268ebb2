// Selectors and their parts, faults, and how specific selectors are.
use crate::normal::normalised;
use crate::parse::parse_selector;
use crate::part::{Args, Part, PartKind, Selectors};
use crate::print::print_selectors;
use crate::specificity::specificity;
use css_text::stop::Stop;
use std::alloc::{AllocError, Global};
use std::process::Abort;
use std::test::Fail;

fn letter(kind: PartKind) -> &'static str {
    match kind {
        PartKind::Blank => "_",
        PartKind::Comment => "*",
        PartKind::Combinator => "+",
        PartKind::Element => "e",
        PartKind::Id => "i",
        PartKind::Class => "c",
        PartKind::Attribute => "a",
        PartKind::PseudoClass => "p",
        PartKind::PseudoElement => "P",
        PartKind::Nesting => "n",
    }
}

#[cycle(tell)]
fn tell_args(alloc: Global, told: &mut String, args: &Args) -> Result<(), AllocError> {
    match args {
        Args::Absent => Ok(()),
        Args::Plain(text) => {
            let plain = format!(in alloc; "({})", text.as_str())?;
            told.push_str(plain.as_str())?;
            Ok(())
        }
        Args::List(inner) => {
            told.push('{')?;
            tell(alloc, told, inner)?;
            told.push('}')?;
            Ok(())
        }
    }
}

#[cycle(tell)]
fn tell_part(alloc: Global, told: &mut String, part: &Part) -> Result<(), AllocError> {
    let front = format!(in alloc; "{}{}<{}>", letter(part.kind), part.at, part.text.as_str())?;
    told.push_str(front.as_str())?;
    tell_args(alloc, told, &part.args)
}

// Each part as its letter, its first byte, its text and its arguments; each complex selector ends with `;`.
#[cycle(tell)]
fn tell(alloc: Global, told: &mut String, selectors: &Selectors) -> Result<(), AllocError> {
    for complex in &selectors.list {
        for part in &complex.parts {
            tell_part(alloc, told, part)?;
        }
        told.push(';')?;
    }
    Ok(())
}

// The text's parts as they are told, or the byte of its fault.
fn told_of(alloc: Global, src: &str) -> Result<String, AllocError> {
    if src.len() >= 4294967296 {
        return format!(in alloc; "too long");
    }
    match parse_selector(alloc, src) {
        Ok(selectors) => {
            let mut told = String::new(alloc);
            tell(alloc, &mut told, &selectors)?;
            if print_selectors(alloc, &selectors)?.as_str() != src {
                told.push_str(" is printed otherwise")?;
            }
            Ok(told)
        }
        Err(Stop::Fault(fault)) => format!(in alloc; "!{}", fault.at),
        Err(Stop::Memory(error)) => Err(error),
    }
}

fn reads(rt: &impl Abort, alloc: Global, rows: &[(&str, &str)]) -> Result<(), Fail> {
    for (src, want) in rows {
        let told = told_of(alloc, src)?;
        assert_eq!(rt; told.as_str(), *want, "in {src}");
    }
    Ok(())
}

#[test]
fn selectors(rt: HostRuntime) -> Result<(), Fail> {
    let rows = [
        ("a", "e0<a>;"),
        (" b ,a  >  c", "_0< >e1<b>_2< >;e4<a>+5<  >  >e10<c>;"),
        (
            "#a .b:is(c,#d)::before",
            "i0<#a>+2< >c3<.b>p5<:is>{e9<c>;i11<#d>;}P14<::before>;",
        ),
        (
            ".btn-check:checked+.btn:hover",
            "c0<.btn-check>p10<:checked>+18<+>c19<.btn>p23<:hover>;",
        ),
        (
            ".table>:not(caption)>*>*",
            "c0<.table>+6<>>p7<:not>{e12<caption>;}+20<>>e21<*>+22<>>e23<*>;",
        ),
        (
            "[type=\"a]b\"]:not(:disabled)",
            "a0<[type=\"a]b\"]>p12<:not>{p17<:disabled>;};",
        ),
        ("[a\\]'\\'']", "a0<[a\\]'\\'']>;"),
        ("svg|a,*|*,|b", "e0<svg|a>;e6<*|*>;e10<|b>;"),
        ("&:hover &", "n0<&>p1<:hover>+7< >n8<&>;"),
        ("> a", "+0<> >e2<a>;"),
        ("a/**//*x*/.b", "e0<a>*1</**/>*5</*x*/>c10<.b>;"),
        ("a/**/ .b", "e0<a>+1</**/ >c6<.b>;"),
        ("a/**/,/**/b", "e0<a>_1</**/>;_6</**/>e10<b>;"),
        ("a/*>*/~b", "e0<a>+1</*>*/~>e7<b>;"),
        (":BEFORE:First-Line", "P0<:BEFORE>P7<:First-Line>;"),
        (":not():is( /**/ )", "p0<:not>()p6<:is>( /**/ );"),
        (":nth-child(2n + (1)')')", "p0<:nth-child>(2n + (1)')');"),
        ("::slotted(a)::is(b", "!18"),
        (
            "\u{e9}\\\u{1f600}.\\31 x",
            "e0<\u{e9}\\\u{1f600}>c7<.\\31>+11< >e12<x>;",
        ),
        (".\\31\u{e9}_-\\:x", "c0<.\\31\u{e9}_-\\:x>;"),
        (":before(x)", "P0<:before>(x);"),
    ];
    reads(&rt, rt.alloc(), &rows)
}

// Each text's fault stands after its longest front with which some list begins.
#[test]
fn faults(rt: HostRuntime) -> Result<(), Fail> {
    let rows = [
        ("", "!0"),
        ("a >,b", "!3"),
        ("a,", "!2"),
        (",a", "!0"),
        (".", "!1"),
        (".1", "c0<.1>;"),
        ("a b)", "!3"),
        ("a%", "!1"),
        ("a %", "!2"),
        ("a/**/b", "!5"),
        ("a/b", "!2"),
        ("a /*x", "!5"),
        ("a /*x*", "!6"),
        (":is(", "!4"),
        (":is(a", "!5"),
        (":is(,a)", "!4"),
        (":is( %)", "!5"),
        (":x(\"a)", "!6"),
        ("[a", "!2"),
        ("a\\", "!2"),
        ("a\\\nb", "!2"),
        ("&a", "!1"),
        (">>a", "!1"),
        ("a||b", "!2"),
        ("::", "!2"),
        ("\u{e9}\u{e9}{", "!4"),
    ];
    reads(&rt, rt.alloc(), &rows)
}

// Of 101 open parentheses the last has no place.
#[test]
fn deep(rt: HostRuntime) -> Result<(), Fail> {
    let mut src = String::new(rt.alloc());
    for _depth in 0..100 {
        src.push_str(":is(")?;
    }
    src.push('a')?;
    for _depth in 0..100 {
        src.push(')')?;
    }
    if src.len() < 4294967296 {
        match parse_selector(rt.alloc(), src.as_str()) {
            Ok(selectors) => assert_eq!(rt;
                print_selectors(rt.alloc(), &selectors)?.as_str(),
                src.as_str()
            ),
            Err(Stop::Fault(fault)) => assert_eq!(rt; fault.at, 0, "nothing is wrong"),
            Err(Stop::Memory(error)) => return Err(error.into()),
        }
    }
    let counts = specific(rt.alloc(), src.as_str())?;
    assert_eq!(rt; counts.as_str(), "0,0,1");
    let mut longer = String::new(rt.alloc());
    longer.push_str(":is(")?;
    for _depth in 0..99 {
        longer.push_str(":is(")?;
    }
    longer.push_str(":x(")?;
    let told = told_of(rt.alloc(), longer.as_str())?;
    assert_eq!(rt; told.as_str(), "!402");
    Ok(())
}

// How specific the first complex selector is, as `a,b,c`.
fn specific(alloc: Global, src: &str) -> Result<String, AllocError> {
    if src.len() >= 4294967296 {
        return format!(in alloc; "too long");
    }
    match parse_selector(alloc, src) {
        Ok(selectors) => match selectors.list.first() {
            Some(complex) => {
                let s = specificity(complex);
                format!(in alloc; "{},{},{}", s.a, s.b, s.c)
            }
            None => format!(in alloc; "nothing"),
        },
        Err(Stop::Fault(fault)) => format!(in alloc; "!{}", fault.at),
        Err(Stop::Memory(error)) => Err(error),
    }
}

#[test]
fn specificities(rt: HostRuntime) -> Result<(), Fail> {
    let rows = [
        ("#a .b:is(c,#d)::before", "2,1,1"),
        (":where(#a)", "0,0,0"),
        ("*", "0,0,0"),
        ("a|*", "0,0,0"),
        ("a|b *|c |d", "0,0,3"),
        ("\\*", "0,0,1"),
        ("&.a[b]:c", "0,3,0"),
        (":not()", "0,0,0"),
        (":NOT(a b c,.d)", "0,1,0"),
        (":has", "0,1,0"),
        (":where", "0,0,0"),
        (":nth-child(2n of #a)", "0,1,0"),
        ("li:before", "0,0,2"),
        ("a:is(b,:not(#c,d)) e", "1,0,2"),
    ];
    for (src, want) in rows {
        let told = specific(rt.alloc(), src)?;
        assert_eq!(rt; told.as_str(), want, "of {src}");
    }
    Ok(())
}

// The normal form of a text's selectors.
fn normal(alloc: Global, src: &str) -> Result<String, AllocError> {
    if src.len() >= 4294967296 {
        return format!(in alloc; "too long");
    }
    match parse_selector(alloc, src) {
        Ok(selectors) => format!(in alloc; "{}", normalised(alloc, &selectors)?.as_str()),
        Err(Stop::Fault(fault)) => format!(in alloc; "!{}", fault.at),
        Err(Stop::Memory(error)) => Err(error),
    }
}

#[test]
fn normal_forms(rt: HostRuntime) -> Result<(), Fail> {
    let rows = [
        (" b ,a  >  c", "a>c,b"),
        ("b/**/.c/*>*/ d, a", "a,b.c d"),
        ("a /*~*/ + /*>*/ b", "a+b"),
        (":not( b , a ),.x", ".x,:not(b,a)"),
        (":nth-child( 2n )/**/", ":nth-child( 2n )"),
        (":is( )", ":is( )"),
        ("\u{e9},z,Z", "Z,z,\u{e9}"),
    ];
    for (src, want) in rows {
        let told = normal(rt.alloc(), src)?;
        assert_eq!(rt; told.as_str(), want, "of {src}");
    }
    Ok(())
}
