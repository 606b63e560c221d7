//! What the steps of a replay make. The function does nothing: its contract is the law.
ghost use Rattle.std.specs.Prelude.{ℕ, List, Option};
ghost use Rattle.beam_values.specs.declared.file_text.FileText.{FileText};
ghost use Rattle.beam_values.specs.declared.options.Options.{Options};
ghost use Rattle.beam_values.specs.declared.piece.FileLen.{FileLen};
ghost use Rattle.beam_values.specs.declared.plan.Plan.{Plan};
ghost use Rattle.book_core.specs.Book.{SeenBook};
ghost use Rattle.book_core.specs.Runs.{IsOpening, MadeStep, Run};
ghost use Rattle.schedule_replay.specs.Replays.{AreWorked, IsReplay};
ghost use Rattle.schedule_replay.specs.Stands.{Stand};
ghost use Rattle.schedule_replay.specs.Works.{Worked};

/// The steps of lines that were worked lead from the book before them to the one behind them. So the steps of a whole
/// replay lead to its book from the opening of a run.
pub fn worked_lines_make_a_run()
    ensures lines { (told : Option (List FileText)) (s end : Stand) (lines : List (List ℕ))
        (steps : List MadeStep) (works : List Worked) (text : List ℕ)
        → AreWorked told s lines steps works text end → Run told s.book steps end.book }
    ensures replay { (told : Option (List FileText)) (plan : Plan) (files : List FileLen)
        (options : Options) (schedule : List ℕ) (steps : List MadeStep) (works : List Worked)
        (book : SeenBook) (text : List ℕ)
        → IsReplay told plan files options schedule steps works book text
        → (first : SeenBook) × IsOpening plan files options first × Run told first steps book }
{}
