use beam_containers::Bytes;

/// A file as a name and the bytes in it.
#[derive(Debug, Drop)]
pub struct FileText {
    pub name: Bytes,
    pub bytes: Bytes,
}
