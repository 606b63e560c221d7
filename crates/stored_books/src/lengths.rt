//! Whether lengths are those of the source items of a plan.

ghost use Rattle.std.specs.Prelude.{◌≡◌, ◌↔◌, ◌≤◌, ◌++◌, [], ◌∷◌, List, true, false, length, IfSome, IsTrue};
ghost use Rattle.std.specs.Prelude.{slice_get};
ghost use Rattle.beam_values.specs.Checked.{reads_file};
ghost use Rattle.beam_values.specs.declared.plan.SourceKind.{SourceKind as SourceKindOf};
ghost use Rattle.beam_values.specs.declared.plan.Args.{Args as ArgsOf};
ghost use Rattle.beam_model.specs.Functions.{first_arg};
ghost use Rattle.beam_model.specs.Positions.{file_items, items, items_of_kind, items_of_source};
ghost use Rattle.beam_model.specs.Positions.{made_item, SourceItem};
ghost use Rattle.stored_books.specs.Lengths.{GoOn, IsItemAt};
ghost use Rattle.book_core.specs.Runs.{AreLengthsOf};

use beam_values::{Args, Bytes, FileLen, NodeKind, Plan, SourceKind};

/// Whether there is one length for each source item, by node and item, and for what is counted or made it is
/// its number.
pub fn are_lengths_of(plan: &Plan, files: &[FileLen]) -> bool
    ensures { IsTrue result ↔ AreLengthsOf (items [] plan.now) files.now }
{
    let mut at = 0;
    for (number, node) in plan.nodes.as_slice().iter().enumerate() {
        let Some(own) = own_lengths(number, &node.kind, files.split_at(at).1) else {
            return false;
        };
        at += own;
    }
    at == files.len()
}

/// How many of the lengths are of a node, where the first ones are those of its items.
fn own_lengths(number: usize, kind: &NodeKind, files: &[FileLen]) -> Option<usize>
    ensures within { IfSome result (λ own. own ≤ length files.now) }
    ensures own { (others : List SourceItem) → AreLengthsOf (items_of_kind [] number kind.now ++ others) files.now
        ↔ GoOn result others files.now }
{
    match kind {
        NodeKind::Source {
            work,
            args,
            files: names,
            ..
        } => own_of_source(number, *work, args, names.as_slice(), files),
        _ => Some(0),
    }
}

fn own_of_source(
    number: usize,
    work: SourceKind,
    args: &Args,
    names: &[Bytes],
    files: &[FileLen],
) -> Option<usize>
    ensures within { IfSome result (λ own. own ≤ length files.now) }
    ensures own { (others : List SourceItem)
        → AreLengthsOf (items_of_source [] number work args.now names.now ++ others) files.now
        ↔ GoOn result others files.now }
{
    if reads_file(work) {
        own_files(number, names, files)
    } else {
        own_made(number, args, files)
    }
}

fn reads_file(work: SourceKind) -> bool
    ensures { result ≡ reads_file work }
{
    match work {
        SourceKind::Lines | SourceKind::TimedLines => true,
        SourceKind::Count | SourceKind::Made => false,
    }
}

/// A file may have any length.
fn own_files(number: usize, names: &[Bytes], files: &[FileLen]) -> Option<usize>
    ensures within { IfSome result (λ own. own ≤ length files.now) }
    ensures own { (work : SourceKindOf) (args : ArgsOf) (others : List SourceItem) → reads_file work ≡ true
        → AreLengthsOf (file_items [] number work args names.now ++ others) files.now
        ↔ GoOn result others files.now }
{
    for item in 0..names.len() {
        if !is_item_at(files, number, item) {
            return None;
        }
    }
    Some(names.len())
}

fn own_made(number: usize, args: &Args, files: &[FileLen]) -> Option<usize>
    ensures within { IfSome result (λ own. own ≤ length files.now) }
    ensures own { (work : SourceKindOf) (others : List SourceItem) → reads_file work ≡ false
        → AreLengthsOf (made_item number work args.now ∷ others) files.now
        ↔ GoOn result others files.now }
{
    if !is_item_at(files, number, 0) || files[0].len != first_arg(args) {
        return None;
    }
    Some(1)
}

fn is_item_at(files: &[FileLen], number: usize, item: usize) -> bool
    ensures { IsTrue result ↔ IsItemAt number item (slice_get files.now item) }
{
    match files.get(item) {
        Some(file) => file.node as usize == number && file.item as usize == item,
        None => false,
    }
}

fn first_arg(args: &Args) -> u64
    ensures { result ≡ first_arg args.now }
{
    match args {
        Args::Two(first, _) => *first,
        _ => 0,
    }
}
