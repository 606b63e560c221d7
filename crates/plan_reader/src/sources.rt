ghost use Rattle.std.specs.Prelude.{◌≡◌, map};
ghost use Rattle.serde_json.specs.View.{view};
ghost use Rattle.plan_reader.specs.Refusals.{Reads};
ghost use Rattle.plan_reader.specs.Settings.{estimator_at, estimator_in, file_of, files_at};
ghost use Rattle.plan_reader.specs.Settings.{files_in, files_of, lag_of};

use crate::forms::{needed, number_in, only_member, strings_in, value_of};
use crate::refusal::{Place, PlanKey, PlanReadRefusal, PlanRefusal};
use crate::windows::LONGEST;
use crate::words::estimator_word;
use beam_values::{Bytes, Estimator, List};
use pipeline_graph::LONGEST_FILE_NAME;
use serde_json::Value;
use std::alloc::Global;

/// The files of a source that reads files.
pub(crate) fn files_at(
    alloc: Global,
    node: u32,
    object: &Value,
) -> Result<List<Bytes>, PlanReadRefusal>
    ensures { Reads (λ files. files) result (files_at node (view object.now)) }
{
    let place = Place::in_node(node, PlanKey::Files);
    files_in(alloc, place, needed(place, object)?)
}

fn files_in(alloc: Global, place: Place, value: &Value) -> Result<List<Bytes>, PlanReadRefusal>
    ensures { Reads (λ files. files) result (files_in place (view value.now)) }
{
    let names = strings_in(alloc, place, value)?;
    files_of(alloc, place, names.as_slice())
}

#[tactic(auto, using(crate::proofs::Turns::turns_at))]
fn files_of(alloc: Global, place: Place, names: &[&str]) -> Result<List<Bytes>, PlanReadRefusal>
    ensures { Reads (λ files. files) result (files_of place (map (λ name. name.now) names.now)) }
{
    let mut files = Vec::with_capacity(alloc, names.len())?;
    for name in names {
        files.push(file_of(alloc, place, name)?)?;
    }
    Ok(List::from_vec(files))
}

fn file_of(alloc: Global, place: Place, name: &str) -> Result<Bytes, PlanReadRefusal>
    ensures { Reads (λ name. name) result (file_of place name.now) }
{
    if 1 <= name.len() && name.len() <= LONGEST_FILE_NAME {
        Ok(Bytes::from_slice(alloc, name.as_bytes())?)
    } else {
        Err(PlanReadRefusal::Bad(PlanRefusal::Name(place)))
    }
}

/// How the watermark of a source follows from what was read.
pub(crate) fn estimator_at(node: u32, object: &Value) -> Result<Estimator, PlanRefusal>
    ensures { result ≡ estimator_at node (view object.now) }
{
    match value_of(PlanKey::Estimator, object) {
        None => Ok(Estimator::None),
        Some(value) => estimator_in(Place::in_node(node, PlanKey::Estimator), value),
    }
}

fn estimator_in(place: Place, value: &Value) -> Result<Estimator, PlanRefusal>
    ensures { result ≡ estimator_in place (view value.now) }
{
    match value.as_str() {
        Some(word) => estimator_word(word).ok_or(PlanRefusal::Name(place)),
        None => match only_member(value) {
            Some((key, value)) => lag_of(place, key, value),
            None => Err(PlanRefusal::Field(place)),
        },
    }
}

fn lag_of(place: Place, key: &str, value: &Value) -> Result<Estimator, PlanRefusal>
    ensures { result ≡ lag_of place (key.now, view value.now) }
{
    match key {
        "lag" => {
            let delay = number_in(0, LONGEST, place, value)?;
            Ok(Estimator::Lag(delay as i64))
        }
        _ => Err(PlanRefusal::Field(place)),
    }
}
