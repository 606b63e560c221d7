ghost use Rattle.std.specs.Prelude.{◌≡◌, ◌<◌, ◌-◌, [], ◌∷◌, ◌++◌, length, slice_get, unwrap_or};
ghost use Rattle.std.specs.Prelude.{IfOk, OnOk};
ghost use Rattle.std.specs.Option.{option_map};
ghost use Rattle.group_cells.specs.Commits.{as_commit};

use beam_values::{Boxed, CommitMarks, Duplicate, List, NoMemory, StageMarks};
use std::alloc::Global;
use std::marker::Model;

/// The marks after each commit, the opening counted in. Most commits of a run change none, and share those
/// of the one before.
///
/// Contracts see their list, and the room that is kept for those of one commit more.
#[derive(Debug, Drop)]
pub struct Commits {
    // Without those of the newest commit where they lie apart: a commit that has changed the cells can't ask
    // for a place of theirs in memory any more, so the next one does that before it changes any.
    shared: List<CommitMarks>,
    newest: Option<List<StageMarks>>,
    alloc: Global,
}

impl Model for Commits {
    ghost use Rattle.std.specs.Prelude.{◌++◌};
    ghost use Rattle.book_core.specs.Commits.{SeenCommits, apart, room_beside};

    ghost Value = { SeenCommits };

    ghost view = { λ c. record { items = c.shared ++ apart c.newest; room = room_beside c.newest } };
}

impl Commits {
    /// The opening alone, which has these marks. Takes no memory.
    pub fn new(alloc: Global, marks: List<StageMarks>) -> Commits
        ensures { result.items ≡ as_commit marks ∷ [] }
    {
        Commits {
            shared: List::new(alloc),
            newest: Some(marks),
            alloc,
        }
    }

    /// Those of a list. Takes no memory.
    pub fn from_list(alloc: Global, commits: List<CommitMarks>) -> Commits
        ensures { result.items ≡ commits }
    {
        Commits {
            shared: commits,
            newest: None,
            alloc,
        }
    }

    /// A copy of the list of them, which shares the marks.
    pub fn copies(&self) -> Result<List<CommitMarks>, NoMemory>
        ensures { IfOk result (λ commits. commits ≡ self.now.items) }
    {
        let mut commits = self.shared.duplicate(self.alloc)?;
        if let Some(newest) = &self.newest {
            let marks = shared_marks(self.alloc, self.shared.as_slice(), newest.as_slice())?;
            commits.push(CommitMarks { marks })?;
        }
        Ok(commits)
    }

    /// How many commits there were.
    pub fn len(&self) -> usize
        ensures { result ≡ length self.now.items }
    {
        match self.newest {
            Some(_) => self.shared.as_slice().len() + 1,
            None => self.shared.len(),
        }
    }

    /// The marks after the last commit.
    pub fn last_marks(&self) -> &[StageMarks]
        ensures { result.now ≡ unwrap_or (option_map (λ commit. commit.marks)
            (slice_get self.now.items (length self.now.items - 1))) [] }
    {
        match (&self.newest, self.shared.as_slice().last()) {
            (Some(marks), _) => marks.as_slice(),
            (None, Some(commit)) => commit.marks.get().as_slice(),
            (None, None) => &[],
        }
    }

    /// Keeps the room for the marks of one commit more.
    pub fn keep_room(&mut self) -> Result<(), NoMemory>
        ensures items { self.new.items ≡ self.old.items }
        ensures ok { OnOk result (0 < self.new.room) }
    {
        if let Some(newest) = &self.newest {
            let marks = shared_marks(self.alloc, self.shared.as_slice(), newest.as_slice())?;
            self.shared.push(CommitMarks { marks })?;
            self.newest = None;
        }
        Ok(())
    }

    /// Adds the marks after a commit, where room is kept. Takes no memory.
    pub fn add_kept(&mut self, marks: List<StageMarks>)
        requires { 0 < self.old.room }
        ensures { self.new.items ≡ self.old.items ++ as_commit marks ∷ [] }
    {
        self.newest = Some(marks);
    }

    /// The list of them.
    pub fn into_list(mut self) -> Result<List<CommitMarks>, NoMemory>
        ensures { IfOk result (λ commits. commits ≡ self.items) }
    {
        self.keep_room()?;
        Ok(self.shared)
    }
}

/// These marks: those of the last of the commits where they are equal, and else a copy.
fn shared_marks(
    alloc: Global,
    commits: &[CommitMarks],
    marks: &[StageMarks],
) -> Result<Boxed<List<StageMarks>>, NoMemory>
    ensures { IfOk result (λ shared. shared ≡ marks.now) }
{
    match commits.last() {
        Some(last) if last.marks.get().as_slice() == marks => last.marks.share(),
        _ => Boxed::new(alloc, List::from_slice(alloc, marks)?),
    }
}
