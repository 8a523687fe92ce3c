// Where a line stands in a file.

/// A section that has a count and so many entries.
#[derive(Clone, Copy, Debug, PartialEq, Eq)]
pub enum Counted {
    Names,
    Nodes,
    Elements,
}

#[derive(Clone, Copy, Debug, PartialEq, Eq)]
pub enum Stand {
    /// Outside of sections.
    Outside,
    /// In a section that is skipped.
    Skipped,
    /// At the line of the format.
    Format,
    /// Behind the line of the format.
    FormatEnd,
    /// At a section's count.
    Count(Counted),
    /// At so many entries of a section, and its end.
    Entries(Counted, u64),
}
