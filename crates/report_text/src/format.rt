// The formats of reports.

/// How a report is written.
#[derive(Clone, Copy, PartialEq, Eq, Debug)]
pub enum Format {
    /// `string`: the warnings of each file below its name, and a total, in the layout of stylelint's formatter of that name.
    Lines,
    /// `unix`: `NAME:LINE:COLUMN: TEXT (RULE) [SEVERITY]` for each warning, and a total.
    Unix,
    /// `json`: an array of all files with their warnings, as compact JSON on one line.
    Json,
}
