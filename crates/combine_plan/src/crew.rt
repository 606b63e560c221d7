//! All kits beside each other, each with the pieces that were dealt to it.

ghost use Rattle.std.specs.Prelude.{◌≡◌, ◌+◌, ◌++◌, IfErr, IfOk, OnOk};
ghost use Rattle.std.specs.Prelude.{List as ListOf};
ghost use Rattle.book_core.specs.Runs.{AreOptions};
ghost use Rattle.bundle_work.specs.Kits.{EachBecomes, observed_shelves, observed_stores};
ghost use Rattle.bundle_work.specs.Outside.{IsKitKept};
ghost use Rattle.bundle_work.specs.Pairs.{AreBoth};
ghost use Rattle.combine_lift.specs.Tables.{Added as AddedOf, StandsFor};
ghost use Rattle.combine_plan.specs.Combined.{known_of};
ghost use Rattle.combine_plan.specs.Dealing.{ranges_in};
ghost use Rattle.combine_plan.specs.Folding.{IsFold, IsFoldRefused, IsJoinRefused};
ghost use Rattle.combine_plan.specs.Hands.{AreJoined, AreUnjoined, CanFold, HasSat};
ghost use Rattle.combine_plan.specs.Hands.{IsFirstRefused, hands_of};

use crate::folding::{MOST_PARTS, fold_pieces};
use crate::refusal::CombineRefusal;
use beam_ports::Store;
use beam_values::{List, NoMemory, Options, Piece};
use bundle_work::{Kit, each_pair};
use combine_lift::{Combiner, LiftRefusal, Partials};
use dofn_traits::Shelf;
use pipeline_graph::Graph;
use std::alloc::Global;
use std::thread::Threads;

/// What a kit has of its own: the pieces that were dealt to it, and what was folded of them.
#[derive(Drop)]
pub struct Seat<P> {
    pub hand: List<Piece>,
    pub folded: Result<P, CombineRefusal>,
}

/// Works each hand of pieces with its kit, in a thread of its own, and joins the tables. Of several kits that
/// are refused the lowest-numbered one decides. All that the kits need places for is made before the first one
/// starts.
pub fn fold_hands<R: Threads + Sync, C: Combiner + Copy + Send + Sync, F: Shelf, S: Store>(
    rt: &R,
    alloc: Global,
    graph: &Graph,
    options: &Options,
    kits: &mut [Kit<F, S>],
    hands: Vec<List<Piece>>,
    combiner: C,
) -> Result<Partials<C>, CombineRefusal>
where
    C::Acc: Send,
    requires allowed { AreOptions options.now }
    requires hands { AreBoth (CanFold S.files S.opened graph.now) kits.old hands.items }
    ensures folded { IfOk result (IsFold C.stands
        (known_of (observed_shelves F.strict F.faults kits.old kits.new)
        (observed_stores S.files S.faults kits.old kits.new))
        graph.now (ranges_in hands.items)) }
    ensures refused { IfErr result (IsFoldRefused C.takes
        (known_of (observed_shelves F.strict F.faults kits.old kits.new)
        (observed_stores S.files S.faults kits.old kits.new))
        (observed_shelves F.strict F.faults kits.old kits.new)
        (observed_stores S.files S.faults kits.old kits.new)
        graph.now options.now.attempts (ranges_in hands.items) 0) }
    ensures kept { EachBecomes kits.old kits.new (λ old new. (new.files ≡ old.files)
        × IsKitKept F.faults F.strict S.faults S.files
        S.opened old.shelf new.shelf old.store new.store) }
{
    let mut seats = seats_for(alloc, hands)?;
    let fold = |seat: &mut Seat<Partials<C>>, kit: &mut Kit<F, S>|
        requires { AreOptions options.now × CanFold S.files S.opened graph.now kit.now seat.now.hand }
        ensures { HasSat F.strict F.faults S.files S.faults S.opened C.stands C.takes
            graph.entry.now options.entry.now.attempts
            kit.entry.now kit.exit.now seat.entry.now seat.exit.now }
    { fold_seat(alloc, graph, options, kit, seat, combiner) };
    each_pair(rt, &fold, seats.as_mut_slice(), kits);
    refusal_in(seats.as_slice())?;
    join_all(alloc, seats, combiner)
}

/// A seat for each hand, at which nothing is folded yet.
fn seats_for<P: Drop>(alloc: Global, hands: Vec<List<Piece>>) -> Result<Vec<Seat<P>>, NoMemory>
    ensures { IfOk result (λ seats. hands_of seats.items ≡ hands.items) }
{
    let mut seats = Vec::with_capacity(alloc, hands.len())?;
    for hand in hands {
        seats.push(Seat {
            hand,
            folded: Err(CombineRefusal::NoMemory),
        })?;
    }
    Ok(seats)
}

/// Works the hand of a seat with its kit.
fn fold_seat<C: Combiner, F: Shelf, S: Store>(
    alloc: Global,
    graph: &Graph,
    options: &Options,
    kit: &mut Kit<F, S>,
    seat: &mut Seat<Partials<C>>,
    combiner: C,
)
    requires allowed { AreOptions options.now }
    requires hand { CanFold S.files S.opened graph.now kit.old seat.old.hand }
    ensures { HasSat F.strict F.faults S.files S.faults S.opened C.stands C.takes
        graph.now options.now.attempts kit.old kit.new seat.old seat.new }
{
    let hand = seat.hand.as_slice();
    seat.folded = fold_pieces(alloc, graph, options, kit, hand, combiner);
}

/// The refusal of the lowest-numbered kit that was refused, if one was.
fn refusal_in<P>(seats: &[Seat<P>]) -> Result<(), CombineRefusal>
    ensures { IfErr result (IsFirstRefused seats.now) }
{
    for seat in seats {
        if let Err(refusal) = &seat.folded {
            return Err(*refusal);
        }
    }
    Ok(())
}

/// The tables of all seats as one.
fn join_all<C: Combiner>(
    alloc: Global,
    seats: Vec<Seat<Partials<C>>>,
    combiner: C,
) -> Result<Partials<C>, CombineRefusal>
    ensures joined { IfOk result (AreJoined C.stands C.takes seats.items) }
    ensures unjoined { IfErr result (AreUnjoined C.stands C.takes seats.items) }
{
    let mut partials = Partials::new(alloc, combiner);
    for seat in seats {
        let Seat { hand: _, folded } = seat;
        let others = folded?;
        join(alloc, &mut partials, others)?;
    }
    Ok(partials)
}

/// The rows of another kit come to a table.
fn join<C: Combiner>(
    alloc: Global,
    partials: &mut Partials<C>,
    others: Partials<C>,
) -> Result<(), CombineRefusal>
    ensures ok { OnOk result ((added more : ListOf AddedOf)
        → StandsFor C.stands partials.old added → StandsFor C.stands others more
        → StandsFor C.stands partials.new (added ++ more)) }
    ensures refused { IfErr result (IsJoinRefused (partials.old.parts + others.parts)) }
{
    let own = partials.parts();
    if own > MOST_PARTS || others.parts() > MOST_PARTS - own {
        return Err(CombineRefusal::Lift(LiftRefusal::Many));
    }
    match partials.absorb(alloc, others) {
        Ok(()) => Ok(()),
        Err(_back) => Err(CombineRefusal::NoMemory),
    }
}
