ghost use Rattle.std.specs.Prelude.{◌≡◌, ◌+◌, ◌<◌, ◌≤◌, [], ◌∷◌, ◌++◌, length, insert, OnOk};
ghost use Rattle.std.specs.List.{filter};
ghost use Rattle.std.specs.List.Sorted.{IsSorted};
ghost use Rattle.beam_values.specs.Nodes.{is_write};
ghost use Rattle.group_cells.specs.Commits.{as_commit};
ghost use Rattle.book_core.specs.Changes.{dead_cmp, done_cmp, with_dead, with_done};
ghost use Rattle.book_core.specs.Committing.{with_dead_in, with_done_in, HasRoomFor};

use crate::commits::Commits;
use beam_values::{Arrival, Dead, Done, List, NoMemory, Pane, Plan, RoomyList, StageMarks};
use std::alloc::Global;
use std::cmp::Ordering;

/// The results of the commits of a run. The lists keep room, so that a commit that has changed the
/// cells can't be refused any more.
#[derive(Debug, Drop)]
pub struct Results {
    pub panes: RoomyList<Pane>,
    pub done: RoomyList<Done>,
    pub dead: RoomyList<Dead>,
    pub written: RoomyList<Arrival>,
    pub commits: Commits,
}

impl Results {
    /// Those of the opening, which has these marks.
    pub fn new(alloc: Global, marks: List<StageMarks>) -> Results
        ensures panes { result.panes.items ≡ [] }
        ensures done { result.done.items ≡ [] }
        ensures dead { result.dead.items ≡ [] }
        ensures written { result.written.items ≡ [] }
        ensures commits { result.commits.items ≡ as_commit marks ∷ [] }
    {
        Results {
            panes: RoomyList::new(alloc),
            done: RoomyList::new(alloc),
            dead: RoomyList::new(alloc),
            written: RoomyList::new(alloc),
            commits: Commits::new(alloc, marks),
        }
    }

    /// Keeps the room that a commit of so many arrivals needs, which fires so many panes at most.
    pub fn keep_room(&mut self, fired: usize, arrivals: usize) -> Result<(), NoMemory>
        ensures panes { self.new.panes.items ≡ self.old.panes.items }
        ensures done { self.new.done.items ≡ self.old.done.items }
        ensures dead { self.new.dead.items ≡ self.old.dead.items }
        ensures written { self.new.written.items ≡ self.old.written.items }
        ensures commits { self.new.commits.items ≡ self.old.commits.items }
        ensures ok { OnOk result (HasRoomFor self.new fired arrivals) }
    {
        self.panes.reserve(fired)?;
        self.done.reserve(1)?;
        self.dead.reserve(1)?;
        self.written.reserve(arrivals)?;
        self.commits.keep_room()
    }

    /// Adds the results of a commit. Of the arrivals that are left those at Writes are written.
    pub fn add(
        &mut self,
        plan: &Plan,
        done: Option<Done>,
        dead: Option<Dead>,
        fired: List<Pane>,
        left: List<Arrival>,
        marks: List<StageMarks>,
    )
        requires done_sorted { IsSorted done_cmp self.old.done.items }
        requires dead_sorted { IsSorted dead_cmp self.old.dead.items }
        requires room { HasRoomFor self.old (length fired) (length left) }
        ensures panes { self.new.panes.items ≡ self.old.panes.items ++ fired }
        ensures done { self.new.done.items ≡ with_done_in done self.old.done.items }
        ensures dead { self.new.dead.items ≡ with_dead_in dead self.old.dead.items }
        ensures written { self.new.written.items
            ≡ self.old.written.items ++ filter (λ arrival. is_write plan.now arrival.node) left }
        ensures commits { self.new.commits.items ≡ self.old.commits.items ++ as_commit marks ∷ [] }
    {
        put_done(&mut self.done, done);
        put_dead(&mut self.dead, dead);
        put_panes(&mut self.panes, fired);
        put_written(plan, &mut self.written, left);
        self.commits.add_kept(marks);
    }
}

fn put_last<T: Drop>(items: &mut RoomyList<T>, item: T)
    requires { 0 < items.old.room }
    ensures items { items.new.items ≡ items.old.items ++ item ∷ [] }
    ensures used { items.old.room ≤ items.new.room + 1 }
{
    let Ok(()) = items.push(item) else {
        unreachable!()
    };
}

// The first panes stay where they lie: a run over one file mostly fires all its panes at once. Where no
// pane fires, the list isn't replaced, so the room that it keeps isn't lost.
fn put_panes(panes: &mut RoomyList<Pane>, fired: List<Pane>)
    requires { length fired ≤ panes.old.room }
    ensures { panes.new.items ≡ panes.old.items ++ fired }
{
    if panes.is_empty() && !fired.is_empty() {
        *panes = RoomyList::from_list(fired);
        return;
    }
    for pane in fired.into_vec() {
        put_last(panes, pane);
    }
}

// Of the arrivals that are left those at Writes are written.
fn put_written(plan: &Plan, written: &mut RoomyList<Arrival>, left: List<Arrival>)
    requires { length left ≤ written.old.room }
    ensures { written.new.items
        ≡ written.old.items ++ filter (λ arrival. is_write plan.now arrival.node) left }
{
    for arrival in left.into_vec() {
        put_if_written(plan, written, arrival);
    }
}

fn put_if_written(plan: &Plan, written: &mut RoomyList<Arrival>, arrival: Arrival)
    requires { 0 < written.old.room }
    ensures items { written.new.items
        ≡ written.old.items ++ filter (λ a. is_write plan.now a.node) (arrival ∷ []) }
    ensures used { written.old.room ≤ written.new.room + 1 }
{
    if is_write(plan, arrival.node) {
        put_last(written, arrival);
    }
}

fn is_write(plan: &Plan, node: u32) -> bool
    ensures { result ≡ is_write plan.now node }
{
    match plan.nodes.get(node as usize) {
        Some(node) => node.kind.is_write(),
        None => false,
    }
}

// Most ranges go behind all others.
fn put_done(done: &mut RoomyList<Done>, range: Option<Done>)
    requires sorted { IsSorted done_cmp done.old.items }
    requires room { 0 < done.old.room }
    ensures { done.new.items ≡ with_done_in range done.old.items }
{
    if let Some(range) = range {
        let at = place_of(done.as_slice(), &range);
        let Ok(()) = done.insert(at, range) else {
            unreachable!()
        };
    }
}

// Behind the ranges that are lower or equal: of equal ranges, which empty ones may be, none is moved for another.
fn place_of(done: &[Done], range: &Done) -> usize
    requires { IsSorted done_cmp done.now }
    ensures within { result ≤ length done.now }
    ensures place { insert done.now result range.now ≡ with_done range.now done.now }
{
    done.partition_point(|other| cmp_done(other, range).is_le())
}

/// The order of the ranges of an outcome.
fn cmp_done(a: &Done, b: &Done) -> Ordering
    ensures { result ≡ done_cmp a.now b.now }
{
    let by_node = a.node.cmp(&b.node);
    let by_item = a.item.cmp(&b.item);
    let by_from = a.range.from().cmp(&b.range.from());
    let by_to = a.range.to().cmp(&b.range.to());
    by_node.then(by_item.then(by_from.then(by_to)))
}

// A position that comes late goes behind most others.
fn put_dead(dead: &mut RoomyList<Dead>, position: Option<Dead>)
    requires sorted { IsSorted dead_cmp dead.old.items }
    requires room { 0 < dead.old.room }
    ensures { dead.new.items ≡ with_dead_in position dead.old.items }
{
    if let Some(position) = position {
        let at = place_of_dead(dead.as_slice(), &position);
        let Ok(()) = dead.insert(at, position) else {
            unreachable!()
        };
    }
}

// Behind the positions that are lower. No position is there twice.
fn place_of_dead(dead: &[Dead], position: &Dead) -> usize
    requires { IsSorted dead_cmp dead.now }
    ensures within { result ≤ length dead.now }
    ensures place { insert dead.now result position.now ≡ with_dead position.now dead.now }
{
    dead.partition_point(|other| cmp_dead(other, position).is_lt())
}

/// The order of the dead positions of an outcome.
fn cmp_dead(a: &Dead, b: &Dead) -> Ordering
    ensures { result ≡ dead_cmp a.now b.now }
{
    let by_node = a.node.cmp(&b.node);
    let by_item = a.item.cmp(&b.item);
    let by_position = a.at.cmp(&b.at);
    by_node.then(by_item.then(by_position))
}
