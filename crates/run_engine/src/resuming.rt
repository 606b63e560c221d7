ghost use Rattle.std.specs.Prelude.{◌≡◌, ◌∷◌, [], None};
ghost use Rattle.book_core.specs.Steps.{IsRunning};
ghost use Rattle.bundle_work.specs.Openings.{AreOpened, file_names};
ghost use Rattle.bundle_work.specs.Reading.{opened_lengths};
ghost use Rattle.run_engine.specs.Kits.{RunsKit, observed_kits};
ghost use Rattle.run_engine.specs.Resuming.{IsResumeEnd};

use crate::run_end::{RunEnd, end_or_none, memory_end};
use beam_ports::Store;
use book_core::Book;
use bundle_work::Kit;
use dofn_traits::Shelf;
use lone_worker::{AloneEnd, work_alone};
use pipeline_graph::Graph;
use std::alloc::Global;

/// Goes on from a book on one kit alone, until no job is left or one has failed as often as the book's options allow. The
/// book stands on this plan, has the lengths of the kit's files and one slot, which works nothing, and isn't stopped; no
/// run need have reached it.
pub fn resume_book<F: Shelf, S: Store>(
    alloc: Global,
    graph: &Graph,
    book: Book,
    kit: &mut Kit<F, S>,
) -> RunEnd
    requires plan { book.plan ≡ graph.now }
    requires slot { book.slots ≡ None ∷ [] }
    requires running { IsRunning book }
    requires opened { AreOpened (S.files kit.old.store) (S.opened kit.old.store)
        (file_names graph.now) kit.old.files }
    requires lengths { opened_lengths graph.now kit.old.files ≡ book.files }
    ensures ended { IsResumeEnd (observed_kits F.Shelf S.Store (kit.old ∷ []) (kit.new ∷ []))
        book result.status result.outcome }
    ensures kept { RunsKit F.Shelf S.Store kit.old kit.new }
{
    let mut book = book;
    let end = work_alone(alloc, &mut book, 0, graph, kit, None);
    book.is_sane();
    match end {
        AloneEnd::Finished | AloneEnd::Spent(_) => end_or_none(book),
        AloneEnd::NoMemory => memory_end(),
        // It ran, and no number of commits is asked for.
        AloneEnd::Stopped | AloneEnd::Paused => unreachable!(),
    }
}
