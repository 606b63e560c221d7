/// How a run works its pieces.
#[derive(Clone, Copy, Debug, PartialEq, Eq)]
pub struct Options {
    /// 1 to 16.
    pub workers: u32,
    /// How many positions that emit an element, or waiting elements, or panes, are worked in one bundle: 1 to 1000000.
    pub bundle: u32,
    /// How many offsets a piece has at first: 1 to 1099511627776.
    pub chunk: u64,
    /// How often a job is tried: 1 to 1000.
    pub attempts: u32,
}

impl Options {
    /// Four workers, bundles of 64, pieces of 65536 offsets, and three attempts.
    pub const DEFAULT: Options = Options {
        workers: 4,
        bundle: 64,
        chunk: 65_536,
        attempts: 3,
    };
}
