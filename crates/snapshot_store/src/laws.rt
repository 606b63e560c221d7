//! That a snapshot is read again as what it was made of, and that nothing else is read as it.

ghost use Rattle.std.specs.Prelude.{◌≡◌, ◌≤◌, ◌<◌, ◌^◌, length, Ok};
ghost use Rattle.book_core.specs.declared.data.BookData.{BookData};
ghost use Rattle.book_core.specs.BookForms.{book_form, FitsBook};
ghost use Rattle.snapshot_store.specs.Snapshots.{snap, snap_meaning};

/// A book's snapshot is read again as that book, where its numbers are those of their types, its options lie
/// within their bounds, the values in it are nested at most 200 deep, and a slice can hold so many bytes.
pub fn snapshots_are_read_again()
    ensures { (stored : BookData) → FitsBook stored → book_form.depth stored ≤ 200
        → length (snap stored) < 2 ^ 64 → snap_meaning (snap stored) ≡ Ok stored }
{}

/// Bytes that are read as a book are that book's snapshot, and its numbers are those of their types and its
/// options lie within their bounds.
pub fn snapshots_are_exact(bytes: &[u8])
    ensures written { (d : BookData) → snap_meaning bytes.now ≡ Ok d → bytes.now ≡ snap d }
    ensures fits { (d : BookData) → snap_meaning bytes.now ≡ Ok d → FitsBook d }
{}
