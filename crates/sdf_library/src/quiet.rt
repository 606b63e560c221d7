/// What is known of one line of a file: no line starts above the offset `from` and below `to`, where the
/// next one starts or the file ends. Where nothing is known both are 0.
#[derive(Clone, Copy, Debug, PartialEq, Eq)]
pub struct Quiet {
    pub from: u64,
    pub to: u64,
}
