ghost use Rattle.std.specs.Prelude.{◌≡◌, ◌++◌, string_bytes};
ghost use Rattle.std.specs.BTreeMap.{keys};
ghost use Rattle.std.specs.List.{list_all};
ghost use Rattle.serde_json.specs.View.{view, members_view};
ghost use Rattle.plan_reader.specs.Forms.{are_listed, has_only, is_listed};
ghost use Rattle.plan_reader.specs.Keys.{further_keys, function_keys, group_keys, node_keys};
ghost use Rattle.plan_reader.specs.Keys.{side_keys, source_keys, state_keys};

use crate::refusal::PlanKey;
use beam_values::{FnKind, NodeKind, SourceKind, StateKind};
use serde_json::{Map, Value};

const COMMON: [PlanKey; 3] = [PlanKey::Name, PlanKey::Kind, PlanKey::Input];

/// Whether an object has only the keys that its kind and its work list.
pub(crate) fn has_only_keys_of(version: u32, kind: &NodeKind, object: &Value) -> bool
    ensures { result ≡ has_only (node_keys version kind.now) (view object.now) }
{
    has_only(&COMMON, further_keys(version, kind), object)
}

/// Whether a side input has no other keys than its own.
pub(crate) fn has_only_side_keys(object: &Value) -> bool
    ensures { result ≡ has_only side_keys (view object.now) }
{
    has_only(&COMMON, &[PlanKey::View, PlanKey::Mode], object)
}

/// Whether an object has only listed keys.
pub(crate) fn has_only(common: &[PlanKey], further: &[PlanKey], object: &Value) -> bool
    ensures { result ≡ has_only (common.now ++ further.now) (view object.now) }
{
    match object.as_object() {
        None => true,
        Some(members) => are_listed(common, further, members),
    }
}

#[tactic(auto, using(crate::proofs::Members::are_listed_by_words))]
fn are_listed(common: &[PlanKey], further: &[PlanKey], members: &Map<String, Value>) -> bool
    ensures { result ≡ are_listed (common.now ++ further.now) (members_view members.now.entries) }
{
    all_listed(common, further, members)
}

fn all_listed(common: &[PlanKey], further: &[PlanKey], members: &Map<String, Value>) -> bool
    ensures { result ≡ list_all (λ word. is_listed (common.now ++ further.now) (string_bytes word))
        (keys members.now) }
{
    members
        .keys()
        .all(|word| is_listed(common, further, word.as_str()))
}

fn is_listed(common: &[PlanKey], further: &[PlanKey], word: &str) -> bool
    ensures { result ≡ is_listed (common.now ++ further.now) word.now }
{
    is_among(common, word) || is_among(further, word)
}

fn is_among(keys: &[PlanKey], word: &str) -> bool
    ensures { result ≡ is_listed keys.now word.now }
{
    keys.iter().any(|key| word == key.word())
}

fn further_keys(version: u32, kind: &NodeKind) -> &'static [PlanKey]
    ensures { result.now ≡ further_keys version kind.now }
{
    match kind {
        NodeKind::Source { work, .. } => source_keys(work),
        NodeKind::ParDo { work, .. } => function_keys(work),
        NodeKind::Flatten => &[],
        NodeKind::WindowInto { .. } => &[PlanKey::Windows],
        NodeKind::Group { .. } => group_keys(version),
        NodeKind::Stateful { work, .. } => state_keys(work),
        NodeKind::Write { .. } => &[PlanKey::Label],
    }
}

fn group_keys(version: u32) -> &'static [PlanKey]
    ensures { result.now ≡ group_keys version }
{
    const PLAIN: [PlanKey; 4] = [
        PlanKey::Early,
        PlanKey::Late,
        PlanKey::Lateness,
        PlanKey::Mode,
    ];
    const WITH_TREES: [PlanKey; 6] = [
        PlanKey::Early,
        PlanKey::Late,
        PlanKey::Lateness,
        PlanKey::Mode,
        PlanKey::EarlyWhen,
        PlanKey::LateWhen,
    ];
    if version >= 3 { &WITH_TREES } else { &PLAIN }
}

fn source_keys(work: &SourceKind) -> &'static [PlanKey]
    ensures { result.now ≡ source_keys work.now }
{
    match work {
        SourceKind::Lines | SourceKind::TimedLines => {
            &[PlanKey::Work, PlanKey::Files, PlanKey::Estimator]
        }
        SourceKind::Count | SourceKind::Made => &[
            PlanKey::Work,
            PlanKey::Count,
            PlanKey::Number,
            PlanKey::Estimator,
        ],
    }
}

fn function_keys(work: &FnKind) -> &'static [PlanKey]
    ensures { result.now ≡ function_keys work.now }
{
    match work {
        FnKind::Field | FnKind::Shift => &[PlanKey::Work, PlanKey::Number],
        FnKind::KeepPrefix => &[PlanKey::Work, PlanKey::Text],
        _ => &[PlanKey::Work],
    }
}

fn state_keys(work: &StateKind) -> &'static [PlanKey]
    ensures { result.now ≡ state_keys work.now }
{
    match work {
        StateKind::BatchUntil | StateKind::LatestThenEmit => {
            &[PlanKey::Work, PlanKey::Number, PlanKey::Log]
        }
        _ => &[PlanKey::Work, PlanKey::Log],
    }
}
