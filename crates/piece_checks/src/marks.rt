//! Whether the marks of commits are as many as the nodes, never fall, and follow from what is held.

ghost use Rattle.std.specs.Prelude.{◌≡◌, ◌↔◌, ◌≤ℤ◌, IsTrue, length};
ghost use Rattle.std.specs.List.{All};
ghost use Rattle.beam_values.specs.Checked.{IsChecked};
ghost use Rattle.beam_values.specs.Marks.{AreMarks};
ghost use Rattle.watermarks.specs.Holds.{hold_at};
ghost use Rattle.piece_checks.specs.MarksOfCommits.{IsRising, NeverFall, NoneFalls};

use beam_values::{CommitMarks, Mark, Plan, StageMarks};
use watermarks::marks_of_node;

/// Whether each commit has one pair of marks for each of so many nodes.
pub fn are_marks_sized(nodes: usize, commits: &[CommitMarks]) -> bool
    ensures { IsTrue result ↔ All (λ commit. length commit.marks ≡ nodes) commits.now }
{
    commits
        .iter()
        .all(|commit| commit.marks.get().len() == nodes)
}

/// Whether no mark falls from one commit to the next.
pub fn never_fall(nodes: usize, commits: &[CommitMarks]) -> bool
    requires { All (λ commit. length commit.marks ≡ nodes) commits.now }
    ensures { IsTrue result ↔ NeverFall commits.now }
{
    for next in 1..commits.len() {
        let before = commits[next - 1].marks.get();
        let after = commits[next].marks.get();
        if !none_falls(before.as_slice(), after.as_slice()) {
            return false;
        }
    }
    true
}

fn none_falls(before: &[StageMarks], after: &[StageMarks]) -> bool
    requires { length before.now ≡ length after.now }
    ensures { IsTrue result ↔ NoneFalls before.now after.now }
{
    for (n, old) in before.iter().enumerate() {
        if !is_rising(*old, after[n]) {
            return false;
        }
    }
    true
}

fn is_rising(old: StageMarks, new: StageMarks) -> bool
    ensures { IsTrue result ↔ IsRising old new }
{
    old.mark_in.ms() <= new.mark_in.ms() && old.mark_out.ms() <= new.mark_out.ms()
}

/// Whether these are the marks of all nodes, where `holds` has the least hold of each, or FINAL.
pub fn are_marks(plan: &Plan, holds: &[Mark], marks: &[StageMarks]) -> bool
    requires checked { IsChecked plan.now }
    requires holds { length holds.now ≡ length plan.now.nodes }
    requires marks { length marks.now ≡ length plan.now.nodes }
    ensures { IsTrue result ↔ AreMarks plan.now (hold_at holds.now) marks.now }
{
    for (n, node) in plan.nodes.as_slice().iter().enumerate() {
        if !is_same(marks[n], marks_of_node(node, holds[n], marks)) {
            return false;
        }
    }
    true
}

fn is_same(a: StageMarks, b: StageMarks) -> bool
    ensures { IsTrue result ↔ (a ≡ b) }
{
    a.mark_in == b.mark_in && a.mark_out == b.mark_out
}
