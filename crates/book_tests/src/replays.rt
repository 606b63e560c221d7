//! A replay whose works find no memory, which no case of the command brings about.
ghost use Rattle.std.specs.Prelude.{◌≡◌, [], ◌∷◌, true, IfOk};
ghost use Rattle.beam_model.specs.Positions.{items};
ghost use Rattle.book_core.specs.Runs.{AreLengthsOf};
ghost use Rattle.bundle_work.specs.Openings.{file_names};
ghost use Rattle.bundle_work.specs.Reading.{opened_lengths};

use beam_ports::MemoryStore;
use beam_values::{
    Args, Bytes, Element, Estimator, FileLen, FnKind, List, LogInput, NoMemory, Node, NodeKind,
    Options, Plan, SourceKind, Span, StateKind, Value,
};
use bundle_work::Kit;
use dofn_traits::{CallRefusal, Emission, Found, Shelf};
use keyed_state::KeyState;
use pipeline_graph::Graph;
use schedule_replay::{ReplayRefusal, replay};
use std::alloc::Global;
use std::test::Fail;
use timer_core::Timers;

// A shelf that has memory for no call.
#[derive(Drop)]
struct Full;

impl Shelf for Full {
    ghost faults = { λ _. 0 };

    ghost strict = { λ _. true };

    fn start_bundle(&mut self) {}

    fn finish_bundle(&mut self) {}

    fn call_fn(
        &mut self,
        _kind: FnKind,
        _args: &Args,
        _e: &Element,
        _out: &mut List<Element>,
    ) -> Result<(), CallRefusal> {
        Err(CallRefusal::NoMemory)
    }

    fn call_split(
        &mut self,
        _kind: SourceKind,
        _args: &Args,
        _bytes: &[u8],
        _base: u64,
        _len: u64,
        _p: u64,
        _out: &mut Emission,
    ) -> Result<Found, CallRefusal> {
        Err(CallRefusal::NoMemory)
    }

    fn call_state(
        &mut self,
        _kind: StateKind,
        _args: &Args,
        _key: &Value,
        _span: Span,
        _input: &LogInput,
        _state: &mut KeyState,
        _timers: &mut Timers,
        _out: &mut List<Element>,
    ) -> Result<(), CallRefusal> {
        Err(CallRefusal::NoMemory)
    }
}

// Two numbers are counted and written.
fn numbers(alloc: Global) -> Result<Plan, NoMemory>
    ensures none { IfOk result (λ plan. file_names plan ≡ []) }
    ensures lengths { IfOk result
        (λ plan. AreLengthsOf (items [] plan) (record { node = 0; item = 0; len = 2 } ∷ [])) }
    ensures opened { IfOk result
        (λ plan. opened_lengths plan [] ≡ record { node = 0; item = 0; len = 2 } ∷ []) }
{
    let mut nodes = List::new(alloc);
    nodes.push(Node {
        kind: NodeKind::Source {
            work: SourceKind::Count,
            args: Args::Two(2, 1000),
            files: List::new(alloc),
            estimator: Estimator::None,
        },
        inputs: List::new(alloc),
    })?;
    nodes.push(Node {
        kind: NodeKind::Write {
            label: Bytes::new(alloc),
        },
        inputs: List::from_slice(alloc, &[0])?,
    })?;
    Ok(Plan { version: 1, nodes })
}

fn replayed<F: Shelf + Drop>(
    alloc: Global,
    shelf: F,
    schedule: &[u8],
) -> Result<Result<Bytes, ReplayRefusal>, Fail> {
    let Ok(graph) = Graph::check(alloc, numbers(alloc)?) else {
        return Err("refused".into());
    };
    let mut files = List::new(alloc);
    files.push(FileLen {
        node: 0,
        item: 0,
        len: 2,
    })?;
    let store = MemoryStore::new(List::new(alloc), List::new(alloc));
    let mut kit = Kit::new(alloc, shelf, store);
    Ok(replay(alloc, graph, files, &Options::DEFAULT, &mut kit, schedule))
}

#[test]
fn a_work_without_memory_ends_a_replay(rt: HostRuntime) -> Result<(), Fail> {
    let alloc = rt.alloc();
    let Ok(text) = replayed(alloc, Full, b"take 0\nsplit 0 0 1\nclaim 0\ncommit 0\n")? else {
        return Err("nothing had to be called".into());
    };
    let printed = b"take 0 range 0 0 0 2
split 0 0
claim 0 0 false
commit 0 panes 0 drops 0
--
done 0 0 0 0
pending 0 0 0 2
";
    assert!(rt; text.as_slice() == printed.as_slice());
    let answer = replayed(alloc, Full, b"take 0\nclaim 0\nfail 0\n")?;
    assert!(rt; answer.err() == Some(ReplayRefusal::NoMemory));
    Ok(())
}
