ghost use Rattle.std.specs.Prelude.{◌≡◌, ◌↔◌, ◌≢◌, ◌+◌, ◌<◌, ◌≤◌, [], ◌∷◌, ◌++◌, List, false};
ghost use Rattle.std.specs.Prelude.{length, reverse, All, IsOk, IsTrue, OnOk, OnErr, IfNone, IfSome};
ghost use Rattle.std.specs.Prelude.{MatchOption};
ghost use Rattle.beam_values.specs.declared.piece.Done.{Done};
ghost use Rattle.beam_values.specs.declared.piece.FileLen.{FileLen};
ghost use Rattle.split_core.specs.Order.{is_lower, with_piece, with_pieces, first_pieces};
ghost use Rattle.split_core.specs.Partition.{range_of, IsPartition, IsCutOut};

use crate::merge::{put_first_pieces, put_in_order};
use beam_values::{NoMemory, Piece, RoomyList};
use std::alloc::Global;
use std::marker::Model;

/// The pending pieces of a run, the lowest first: by node, item and range, and then by what was seen
/// before them and how often they failed.
#[derive(Debug, Drop)]
pub struct Pieces {
    // They descend, so that the first piece is the last item and is taken by a pop.
    items: RoomyList<Piece>,
    // How many pieces can be held before memory is asked for.
    places: usize,
    alloc: Global,
}

impl Model for Pieces {
    ghost use Rattle.std.specs.Prelude.{◌-◌, length, reverse};
    ghost use Rattle.split_core.specs.SeenPieces.{SeenPieces, IsKept};

    ghost Value = { SeenPieces };

    ghost view = { λ p. record {
      pending = reverse p.items.items;
      room = p.places - length p.items.items;
    } };

    ghost invariant = { λ p. IsKept p.items.items p.items.room p.places };
}

impl Pieces {
    /// Takes no memory.
    pub fn new(alloc: Global) -> Pieces
        ensures { result ≡ record { pending = []; room = 0 } }
    {
        Pieces {
            items: RoomyList::new(alloc),
            places: 0,
            alloc,
        }
    }

    /// Cuts an item of `len` offsets into pieces of `chunk` offsets, the last of which may be shorter
    /// (Splittable DoFn, initial splitting). It works as long as there are new pieces and pending ones
    /// that are lower, so many items are best cut from the last to the first.
    pub fn initial(&mut self, node: u32, item: u32, len: u64, chunk: u64) -> Result<(), NoMemory>
        requires { 1 ≤ chunk }
        ensures ok { OnOk result
            (self.new.pending ≡ with_pieces (first_pieces node item len chunk) self.old.pending) }
        ensures err { OnErr result (self.new ≡ self.old) }
        ensures kept { self.old.room ≤ self.new.room }
        ensures cover { OnOk result
            ((items : List FileLen) (out : List Done) → IsPartition items self.old.pending out
            → IsPartition (items ++ record { node = node; item = item; len = len } ∷ [])
            self.new.pending out) }
    {
        let count = len.div_ceil(chunk) as usize;
        let Some(all) = self.items.len().checked_add(count) else {
            return Err(NoMemory);
        };
        let mut lower = RoomyList::new(self.alloc);
        lower.reserve(all)?;
        self.keep_more(count)?;
        put_first_pieces(&mut self.items, &mut lower, node, item, len, chunk);
        Ok(())
    }

    /// Takes the lowest piece. Its place is kept.
    pub fn take(&mut self) -> Option<Piece>
        ensures first { MatchOption result (self.old.pending ≡ [])
            (λ piece. self.old.pending ≡ piece ∷ self.new.pending) }
        ensures lowest { IfSome result
            (λ piece. All (λ other. is_lower other piece ≡ false) self.new.pending) }
        ensures none { IfNone result (self.new ≡ self.old) }
        ensures kept { IfSome result (λ _. self.old.room + 1 ≤ self.new.room) }
        ensures cover { IfSome result (λ piece. (items : List FileLen) (out : List Done)
            → IsPartition items self.old.pending out
            → IsPartition items self.new.pending (out ++ range_of piece ∷ [])) }
    {
        self.items.pop()
    }

    /// Puts a piece into a kept place, as one that was taken. Takes no memory.
    pub fn give_back(&mut self, piece: Piece)
        requires { 0 < self.old.room }
        ensures pending { self.new.pending ≡ with_piece piece self.old.pending }
        ensures used { self.old.room ≤ self.new.room + 1 }
        ensures cover { (items : List FileLen) (out rest : List Done)
            → IsCutOut out piece rest → IsPartition items self.old.pending out
            → IsPartition items self.new.pending rest }
    {
        put_in_order(&mut self.items, piece);
    }

    /// Puts one more piece in, as the residual of a split (Splittable DoFn, dynamic splitting). The
    /// places that are kept stay kept.
    pub fn add_residual(&mut self, piece: Piece) -> Result<(), NoMemory>
        ensures ok { OnOk result (self.new.pending ≡ with_piece piece self.old.pending) }
        ensures err { OnErr result (self.new ≡ self.old) }
        ensures kept { self.old.room ≤ self.new.room }
        ensures cover { OnOk result
            ((items : List FileLen) (out rest : List Done) → IsCutOut out piece rest
            → IsPartition items self.old.pending out → IsPartition items self.new.pending rest) }
    {
        self.keep_more(1)?;
        self.give_back(piece);
        Ok(())
    }

    /// Keeps so many further places.
    pub fn keep_room(&mut self, places: u32) -> Result<(), NoMemory>
        ensures pending { self.new.pending ≡ self.old.pending }
        ensures ok { OnOk result (self.old.room + places ≤ self.new.room) }
        ensures err { OnErr result (self.new ≡ self.old) }
        ensures kept { self.old.room ≤ self.new.room }
    {
        self.keep_more(places as usize)
    }

    /// Keeps at least so many places. Where they are kept already, nothing changes and no memory is taken.
    pub fn keep_at_least(&mut self, places: u32) -> Result<(), NoMemory>
        ensures pending { self.new.pending ≡ self.old.pending }
        ensures ok { OnOk result (places ≤ self.new.room) }
        ensures err { OnErr result (self.new ≡ self.old) }
        ensures kept { self.old.room ≤ self.new.room }
        ensures had { places ≤ self.old.room → IsOk result }
        ensures same { places ≤ self.old.room → self.new ≡ self.old }
    {
        let kept = self.places - self.items.len();
        let places = places as usize;
        if places <= kept {
            return Ok(());
        }
        self.keep_more(places - kept)
    }

    fn keep_more(&mut self, more: usize) -> Result<(), NoMemory>
        ensures pending { self.new.pending ≡ self.old.pending }
        ensures ok { OnOk result (self.new.room ≡ self.old.room + more) }
        ensures err { OnErr result (self.new ≡ self.old) }
    {
        let Some(places) = self.places.checked_add(more) else {
            return Err(NoMemory);
        };
        self.items.reserve(places - self.items.len())?;
        self.places = places;
        Ok(())
    }

    /// Whether no pending piece is of the node.
    pub fn finished(&self, node: u32) -> bool
        ensures { IsTrue result ↔ All (λ piece. piece.node ≢ node) self.now.pending }
    {
        self.items
            .as_slice()
            .binary_search_by(|item| node.cmp(&item.node))
            .is_err()
    }

    /// The pending pieces, the first to be taken last.
    pub fn pending(&self) -> &[Piece]
        ensures { result.now ≡ reverse self.now.pending }
    {
        self.items.as_slice()
    }

    /// How many pieces are pending; places that are kept don't count.
    pub fn len(&self) -> usize
        ensures { result ≡ length self.now.pending }
    {
        self.items.len()
    }

    /// Whether no piece is pending.
    pub fn is_empty(&self) -> bool
        ensures { IsTrue result ↔ (self.now.pending ≡ []) }
    {
        self.items.is_empty()
    }
}
