//! A document that is read, and three that are refused.

use beam_values::{Bytes, Estimator, NodeKind, SourceKind, Strategy};
use plan_reader::{PlanReadRefusal, PlanRefusal, length_refusal, read_plan, refusal_text};
use std::alloc::Global;
use std::process::Abort;
use std::test::Fail;

const VISITS: &str = r#"{"beam":1,"nodes":[
{"name":"in","kind":"source","work":"TimedLines","files":["access.log"],"estimator":{"lag":5000}},
{"name":"key","kind":"pardo","work":"KeyField","input":["in"]},
{"name":"size","kind":"pardo","work":"FieldInt","input":["key"]},
{"name":"minute","kind":"window","windows":{"fixed":60000},"input":["size"]},
{"name":"by path","kind":"group","input":["minute"]},
{"name":"sum","kind":"pardo","work":"SumSeq","input":["by path"]},
{"name":"out","kind":"write","input":["sum"]}]}"#;

#[test]
fn a_plan_of_sums_by_minute_is_read(rt: HostRuntime) -> Result<(), Fail> {
    let Ok(graph) = read_plan(rt.alloc(), VISITS.as_bytes()) else {
        return Err("refused".into());
    };
    let plan = graph.into_plan();
    assert_eq!(rt; plan.version, 1);
    let [source, _key, _size, minute, group, sum, out] = plan.nodes.as_slice() else {
        return Err("other than seven nodes".into());
    };
    let NodeKind::Source {
        work,
        files,
        estimator,
        ..
    } = &source.kind
    else {
        return Err("no source".into());
    };
    assert_eq!(rt; *work, SourceKind::TimedLines);
    assert_eq!(rt;
        files.as_slice().first().map(Bytes::as_slice),
        Some(b"access.log".as_slice())
    );
    assert_eq!(rt; *estimator, Estimator::Lag(5000));
    let NodeKind::WindowInto { strategy } = &minute.kind else {
        return Err("no window".into());
    };
    assert_eq!(rt; *strategy, Strategy::Fixed { size: 60_000 });
    assert_eq!(rt; group.inputs.as_slice(), [3].as_slice());
    assert_eq!(rt; sum.inputs.as_slice(), [4].as_slice());
    let NodeKind::Write { label } = &out.kind else {
        return Err("no write".into());
    };
    assert_eq!(rt; label.as_slice(), b"out".as_slice());
    Ok(())
}

// The document is refused, by a refusal of this text.
fn refuses(
    rt: &impl Abort,
    alloc: Global,
    document: &[u8],
    text: &str,
) -> Result<PlanRefusal, Fail> {
    match read_plan(alloc, document) {
        Ok(_) => Err("accepted".into()),
        Err(PlanReadRefusal::NoMemory) => Err("no memory".into()),
        Err(PlanReadRefusal::Bad(refusal)) => {
            assert_eq!(rt; refusal_text(alloc, &refusal)?.as_slice(), text.as_bytes());
            Ok(refusal)
        }
    }
}

#[test]
fn documents_are_refused_by_the_first_rule_that_they_break(rt: HostRuntime) -> Result<(), Fail> {
    let alloc = rt.alloc();
    let syntax = refuses(&rt, alloc, b"{", "1 syntax")?;
    assert_eq!(rt; syntax.number(), 1);
    let unknown = br#"{"beam":1,"nodes":[{"name":"a","kind":"sort"}]}"#;
    refuses(&rt, alloc, unknown, "3 name node 0 kind")?;
    let spaces = Vec::from_elem(alloc, b' ', 1_048_577)?;
    let long = refuses(&rt, alloc, spaces.as_slice(), "7 length 1048577")?;
    assert_eq!(rt; length_refusal(1_048_577), Some(long));
    assert_eq!(rt; length_refusal(1_048_576), None);
    Ok(())
}
