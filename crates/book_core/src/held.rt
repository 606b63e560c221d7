ghost use Rattle.std.specs.Prelude.{◌≡◌, ℕ, true, ◌+◌, ◌<◌, ◌≤◌, ◌∷◌, ◌++◌, List, length, map, []};
ghost use Rattle.std.specs.Prelude.{replicate, Contains, OnOk, IfOk};
ghost use Rattle.beam_model.specs.Holds.{Hold, piece_hold, estimator_in};
ghost use Rattle.beam_values.specs.Checked.{IsChecked, is_estimator_allowed};
ghost use Rattle.beam_values.specs.Marks.{mark_of, least_mark};
ghost use Rattle.std.specs.Int.{int_min};
ghost use Rattle.watermarks.specs.Holds.{hold_at};
ghost use Rattle.book_core.specs.Indexes.{marks_in, least_in, room_in, AreHeldIn};

use beam_values::{Mark, NoMemory, NodeKind, Piece, Plan, Time};
use std::alloc::Global;
use std::marker::Model;
use watermarks::{Holds, mark_of};

/// The mark at which a piece that isn't committed holds its source back.
pub fn mark_of_piece(plan: &Plan, piece: &Piece) -> Mark
    requires { IsChecked plan.now }
    ensures { result ≡ (piece_hold plan.now piece.now).mark }
{
    match plan.nodes.get(piece.node as usize) {
        Some(node) => mark_by(&node.kind, piece.seen),
        None => Mark::at(Time::LEAST),
    }
}

// What isn't a source has no estimator.
fn mark_by(kind: &NodeKind, seen: Time) -> Mark
    requires { is_estimator_allowed (estimator_in kind.now) ≡ true }
    ensures { result ≡ mark_of (estimator_in kind.now) seen }
{
    match kind {
        NodeKind::Source { estimator, .. } => mark_of(estimator, seen),
        _ => Mark::at(Time::LEAST),
    }
}

/// The marks that hold each node back.
#[derive(Debug, Drop)]
pub struct NodeHolds {
    nodes: Vec<Holds>,
}

impl Model for NodeHolds {
    ghost use Rattle.std.specs.Prelude.{List};
    ghost use Rattle.watermarks.specs.Holds.{SeenHolds};

    ghost Value = { List SeenHolds };

    ghost view = { λ h. h.nodes.items };
}

impl NodeHolds {
    /// So many nodes, which nothing holds back.
    pub fn new(alloc: Global, count: usize) -> Result<NodeHolds, NoMemory>
        ensures none { IfOk result (λ held. AreHeldIn held []) }
        ensures sized { IfOk result (λ held. length held ≡ count) }
    {
        let mut nodes = Vec::new(alloc);
        for _node in 0..count {
            nodes.push(Holds::new(alloc))?;
        }
        Ok(NodeHolds { nodes })
    }

    /// The least mark of each node, or FINAL.
    pub fn least(&self, alloc: Global) -> Result<Vec<Mark>, NoMemory>
        ensures { IfOk result
            (λ least. least.items ≡ map (λ holds. least_mark holds.marks) self.now) }
    {
        let mut least = Vec::new(alloc);
        for holds in &self.nodes {
            least.push(holds.least_or_final())?;
        }
        Ok(least)
    }

    /// The least mark of each node, where these marks hold the nodes back too.
    pub fn least_with(&self, alloc: Global, others: &[Mark]) -> Result<Vec<Mark>, NoMemory>
        ensures sized { IfOk result (λ least. length least.items ≡ length self.now) }
        ensures each { IfOk result (λ least. (n : ℕ) → n < length self.now
            → hold_at least.items n ≡ int_min (least_in self.now n) (hold_at others.now n)) }
    {
        least_with(alloc, self.nodes.as_slice(), others)
    }

    /// Keeps room for so many more marks at a node.
    pub fn keep_room(&mut self, node: u32, places: usize) -> Result<(), NoMemory>
        requires { node < length self.old }
        ensures ok { OnOk result (places ≤ room_in self.new node) }
        ensures marks { (n : ℕ) → marks_in self.new n ≡ marks_in self.old n }
        ensures kept { (n : ℕ) → room_in self.old n ≤ room_in self.new n }
        ensures sized { length self.new ≡ length self.old }
    {
        keep_room(self.nodes.as_mut_slice(), node, places)
    }

    /// Adds a mark that holds a node back, where room is kept.
    pub fn add_kept(&mut self, node: u32, mark: Mark)
        requires within { node < length self.old }
        requires room { 0 < room_in self.old node }
        ensures added { (holds : List Hold) → AreHeldIn self.old holds
            → AreHeldIn self.new (record { node = node; mark = mark } ∷ holds) }
        ensures used { (n : ℕ) → room_in self.old n ≤ room_in self.new n + 1 }
        ensures sized { length self.new ≡ length self.old }
    {
        add_kept(self.nodes.as_mut_slice(), node, mark);
    }

    /// Holds a node back so many times more at a mark that it is held at. Takes no memory, and uses no room.
    pub fn hold_again(&mut self, node: u32, mark: Mark, times: usize)
        requires within { node < length self.old }
        requires among { Contains (marks_in self.old node) mark }
        requires few { length (marks_in self.old node) + times < 18446744073709551616 }
        ensures held { (holds : List Hold) → AreHeldIn self.old holds
            → AreHeldIn self.new (replicate times (record { node = node; mark = mark }) ++ holds) }
        ensures kept { (n : ℕ) → room_in self.old n ≤ room_in self.new n }
        ensures sized { length self.new ≡ length self.old }
    {
        hold_again(self.nodes.as_mut_slice(), node, mark, times);
    }

    /// Takes out a mark that holds a node back.
    pub fn remove(&mut self, node: u32, mark: Mark)
        requires within { node < length self.old }
        requires held { Contains (marks_in self.old node) mark }
        ensures removed { (holds : List Hold)
            → AreHeldIn self.old (record { node = node; mark = mark } ∷ holds)
            → AreHeldIn self.new holds }
        ensures kept { (n : ℕ) → room_in self.old n ≤ room_in self.new n }
        ensures sized { length self.new ≡ length self.old }
    {
        remove(self.nodes.as_mut_slice(), node, mark);
    }
}

fn least_with(alloc: Global, nodes: &[Holds], others: &[Mark]) -> Result<Vec<Mark>, NoMemory>
    ensures sized { IfOk result (λ least. length least.items ≡ length nodes.now) }
    ensures each { IfOk result (λ least. (n : ℕ) → n < length nodes.now
        → hold_at least.items n ≡ int_min (least_in nodes.now n) (hold_at others.now n)) }
{
    let mut least = Vec::with_capacity(alloc, nodes.len())?;
    for (n, holds) in nodes.iter().enumerate() {
        least.push_reserved(lesser(holds.least_or_final(), mark_at(others, n)));
    }
    Ok(least)
}

fn mark_at(marks: &[Mark], at: usize) -> Mark
    ensures { result ≡ hold_at marks.now at }
{
    match marks.get(at) {
        Some(mark) => *mark,
        None => Mark::FINAL,
    }
}

fn lesser(a: Mark, b: Mark) -> Mark
    ensures { result ≡ int_min a b }
{
    if b.ms() < a.ms() { b } else { a }
}

fn keep_room(held: &mut [Holds], node: u32, places: usize) -> Result<(), NoMemory>
    requires { node < length held.old }
    ensures ok { OnOk result (places ≤ room_in held.new node) }
    ensures marks { (n : ℕ) → marks_in held.new n ≡ marks_in held.old n }
    ensures kept { (n : ℕ) → room_in held.old n ≤ room_in held.new n }
{
    let holds = &mut held[node as usize];
    holds.keep_room(places)
}

fn add_kept(held: &mut [Holds], node: u32, mark: Mark)
    requires within { node < length held.old }
    requires room { 0 < room_in held.old node }
    ensures added { (holds : List Hold) → AreHeldIn held.old holds
        → AreHeldIn held.new (record { node = node; mark = mark } ∷ holds) }
    ensures used { (n : ℕ) → room_in held.old n ≤ room_in held.new n + 1 }
{
    let holds = &mut held[node as usize];
    let Ok(()) = holds.add(mark) else {
        unreachable!()
    };
}

fn hold_again(held: &mut [Holds], node: u32, mark: Mark, times: usize)
    requires within { node < length held.old }
    requires among { Contains (marks_in held.old node) mark }
    requires few { length (marks_in held.old node) + times < 18446744073709551616 }
    ensures held { (holds : List Hold) → AreHeldIn held.old holds
        → AreHeldIn held.new (replicate times (record { node = node; mark = mark }) ++ holds) }
    ensures kept { (n : ℕ) → room_in held.old n ≤ room_in held.new n }
{
    for _time in 0..times {
        add_again(held, node, mark);
    }
}

fn add_again(held: &mut [Holds], node: u32, mark: Mark)
    requires within { node < length held.old }
    requires among { Contains (marks_in held.old node) mark }
    requires few { length (marks_in held.old node) < 18446744073709551615 }
    ensures added { (holds : List Hold) → AreHeldIn held.old holds
        → AreHeldIn held.new (record { node = node; mark = mark } ∷ holds) }
    ensures among { Contains (marks_in held.new node) mark }
    ensures longer { length (marks_in held.new node) ≡ length (marks_in held.old node) + 1 }
    ensures kept { (n : ℕ) → room_in held.old n ≤ room_in held.new n }
{
    let holds = &mut held[node as usize];
    holds.add_again(mark);
}

fn remove(held: &mut [Holds], node: u32, mark: Mark)
    requires within { node < length held.old }
    requires held { Contains (marks_in held.old node) mark }
    ensures removed { (holds : List Hold)
        → AreHeldIn held.old (record { node = node; mark = mark } ∷ holds)
        → AreHeldIn held.new holds }
    ensures kept { (n : ℕ) → room_in held.old n ≤ room_in held.new n }
{
    let holds = &mut held[node as usize];
    holds.remove(mark);
}
