/// A place in a text: lines count from 1 and end at a line feed, columns count from 1 in bytes.
#[derive(Debug, Clone, Copy, PartialEq, Eq, Drop)]
pub struct Place {
    pub line: u32,
    pub column: u32,
}
