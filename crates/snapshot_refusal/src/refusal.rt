use beam_coders::CoderRefusal;

/// Why a file is no snapshot of a plan: the first of these that fits. A note counts them from 1.
#[derive(Clone, Copy, Debug, PartialEq, Eq)]
pub enum SnapRefusal {
    /// It has so many bytes, more than 1073741824, and isn't read.
    Length(u64),
    /// Its first four bytes aren't those of a snapshot.
    Magic,
    /// No value follows these four bytes.
    Coder(CoderRefusal),
    /// Bytes follow the value.
    Rest,
    /// The value isn't the data of a book: it has another form, a number is out of its type, or an option
    /// is out of its bounds.
    Shape,
    /// It is a snapshot of another plan.
    Plan,
    /// The files of the plan have other lengths than they had.
    Files,
    /// No book has this data.
    Sane,
}
