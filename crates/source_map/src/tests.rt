// Rows of mappings texts, and segments there and back.
use crate::reading::read_mappings;
use crate::segment::{Origin, Segment, SourceMap};
use crate::writing::{lines_rise, mappings};
use css_text::stop::Stop;
use css_text::txt::Txt;
use std::alloc::{AllocError, Global};
use std::test::Fail;

// What a text reads as: its segments, or the byte of its fault.
fn read(alloc: Global, text: &str) -> Result<String, AllocError> {
    let mut told = String::new(alloc);
    if text.len() > 1000 {
        return Ok(told);
    }
    match read_mappings(alloc, text) {
        Ok(segments) => {
            for segment in &segments {
                push_segment(alloc, &mut told, segment)?;
            }
        }
        Err(Stop::Fault(fault)) => {
            let number = format!(in alloc; "fault at {}", fault.at)?;
            told.push_str(number.as_str())?;
        }
        Err(Stop::Memory(error)) => return Err(error),
    }
    Ok(told)
}

fn push_segment(alloc: Global, told: &mut String, segment: &Segment) -> Result<(), AllocError> {
    let place = format!(in alloc; "{}:{}", segment.line, segment.column)?;
    told.push_str(place.as_str())?;
    if let Some(origin) = segment.origin {
        let from = format!(in alloc; "={}:{}:{}", origin.source, origin.line, origin.column)?;
        told.push_str(from.as_str())?;
    }
    told.push_str(" ")
}

#[test]
fn rows(rt: HostRuntime) -> Result<(), Fail> {
    let rows = [
        ("", ""),
        (";,;;,", ""),
        ("AAAA;EACE", "0:0=0:0:0 1:2=0:1:2 "),
        ("AA", "fault at 2"),
        ("AA=A", "fault at 2"),
        ("g", "fault at 1"),
        ("gggggggA", "fault at 7"),
        ("ggggggA", "0:0 "),
        ("A,E;,G", "0:0 0:2 1:3 "),
        ("AAAAA,CACAC", "0:0=0:0:0 0:1=0:1:0 "),
        ("AAAAAA", "fault at 6"),
        ("AAA", "fault at 3"),
        ("A,D", "fault at 3"),
        ("AAAA;ADAA", "fault at 9"),
        ("+///////////", "fault at 7"),
        ("+/////I", "fault at 7"),
        ("+/////H", "0:4294967295 "),
        ("A\u{e9}", "fault at 1"),
        ("A,\u{1f600}", "fault at 2"),
        ("AAgB", "fault at 4"),
    ];
    for (text, told) in rows {
        assert_eq!(rt; read(rt.alloc(), text)?.as_str(), told, "{text}");
    }
    Ok(())
}

// The text of what a text reads as.
fn again(alloc: Global, text: &str) -> Result<Option<Txt>, AllocError> {
    if text.len() > 1000 {
        return Ok(None);
    }
    let segments = match read_mappings(alloc, text) {
        Ok(segments) => segments,
        Err(_) => return Ok(None),
    };
    written(alloc, segments)
}

fn written(alloc: Global, segments: Vec<Segment>) -> Result<Option<Txt>, AllocError> {
    if !lines_rise(&segments) {
        return Ok(None);
    }
    let source_map = SourceMap {
        name: Txt::new(alloc, "site.css")?,
        segments,
    };
    let text = mappings(alloc, &source_map)?;
    Ok(Some(text))
}

#[test]
fn there_and_back(rt: HostRuntime) -> Result<(), Fail> {
    let rows = [
        "",
        "A",
        ";;;A,C",
        "AAAA;AACA;;AAEA;AACA;EACE;EACA;;;AAGF;EACE;;;AAGF;EACE;EACA;EACA;EACA;;;AAGF;EACE,OAAO;;;AAGT;EACE,OAAO;EACP,KAAK",
    ];
    for row in rows {
        match again(rt.alloc(), row)? {
            Some(text) => assert_eq!(rt; text.as_str(), row),
            None => assert!(rt; false, "{row}"),
        }
    }
    Ok(())
}

// The next of some numbers that look random.
fn next_number(last: u32) -> u32 {
    last.wrapping_mul(1664525).wrapping_add(1013904223)
}

fn scattered(alloc: Global, count: u32) -> Result<Vec<Segment>, AllocError> {
    let mut segments = Vec::new(alloc);
    let mut line = 0u32;
    let mut number = 7u32;
    for _ in 0..count {
        line = line.saturating_add(number % 3);
        number = next_number(number);
        let column = number;
        number = next_number(number);
        let source = number;
        number = next_number(number);
        let origin = Origin {
            source,
            line: number,
            column: number / 5,
        };
        segments.push(Segment {
            line,
            column,
            origin: if number % 4 == 0 { None } else { Some(origin) },
        })?;
    }
    Ok(segments)
}

#[test]
fn scattered_segments(rt: HostRuntime) -> Result<(), Fail> {
    let text = match written(rt.alloc(), scattered(rt.alloc(), 300)?)? {
        Some(text) => text,
        None => {
            assert!(rt; false, "the lines rise");
            return Ok(());
        }
    };
    if text.as_str().len() > 100000 {
        assert!(rt; false, "the text is short");
        return Ok(());
    }
    let expected = scattered(rt.alloc(), 300)?;
    match read_mappings(rt.alloc(), text.as_str()) {
        Ok(segments) => assert_eq!(rt; segments.as_slice(), expected.as_slice()),
        Err(_) => assert!(rt; false, "the text is read"),
    }
    Ok(())
}
