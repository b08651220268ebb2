// What a source map tells.
use css_text::txt::Txt;

/// A place of the output, and the place of a source that it comes from, where it has one. Lines and
/// columns count from 0; columns count UTF-16 units.
#[derive(Clone, Copy, PartialEq, Eq, Debug)]
pub struct Segment {
    pub line: u32,
    pub column: u32,
    pub origin: Option<Origin>,
}

/// A place of a source: the source's number in the map's list, counted from 0, its line and its column.
#[derive(Clone, Copy, PartialEq, Eq, Debug)]
pub struct Origin {
    pub source: u32,
    pub line: u32,
    pub column: u32,
}

/// The segments of an output in its order, with the name of its one source.
#[derive(Drop)]
pub struct SourceMap {
    pub name: Txt,
    pub segments: Vec<Segment>,
}

/// A mappings text that stands for no segments: the byte at which this shows, counted from 0.
#[derive(Clone, Copy, PartialEq, Eq, Debug)]
pub struct MapFault {
    pub at: u32,
}
