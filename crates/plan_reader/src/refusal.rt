ghost use Rattle.std.specs.Prelude.{◌≡◌};
ghost use Rattle.plan_reader.specs.Places.{key_word, in_node, at_top};
ghost use Rattle.plan_reader.specs.Refusals.{refusal_number};

use beam_values::{GraphRefusal, NoMemory};
use pipeline_graph::CheckRefusal;
use std::alloc::{AllocError, AllocFailed};

/// A key of a plan document, by its word.
#[derive(Clone, Copy, Debug, PartialEq, Eq)]
pub enum PlanKey {
    Beam,
    Nodes,
    Name,
    Kind,
    Input,
    Work,
    Files,
    Count,
    Number,
    Estimator,
    Text,
    Windows,
    Early,
    EarlyWhen,
    Late,
    LateWhen,
    Lateness,
    Mode,
    View,
    Log,
    Label,
    /// The whole object, or a key that it doesn't list.
    Other,
}

impl PlanKey {
    /// The word of the key, in a document and in a refusal.
    pub fn word(&self) -> &'static str
        ensures { result.now ≡ key_word self.now }
    {
        match self {
            PlanKey::Beam => "beam",
            PlanKey::Nodes => "nodes",
            PlanKey::Name => "name",
            PlanKey::Kind => "kind",
            PlanKey::Input => "input",
            PlanKey::Work => "work",
            PlanKey::Files => "files",
            PlanKey::Count => "count",
            PlanKey::Number => "number",
            PlanKey::Estimator => "estimator",
            PlanKey::Text => "text",
            PlanKey::Windows => "windows",
            PlanKey::Early => "early",
            PlanKey::EarlyWhen => "early_when",
            PlanKey::Late => "late",
            PlanKey::LateWhen => "late_when",
            PlanKey::Lateness => "lateness",
            PlanKey::Mode => "mode",
            PlanKey::View => "view",
            PlanKey::Log => "log",
            PlanKey::Label => "label",
            PlanKey::Other => "other",
        }
    }
}

/// Where a document breaks a rule: a key of its top object, or of a node by its number.
#[derive(Clone, Copy, Debug, PartialEq, Eq)]
pub struct Place {
    pub node: Option<u32>,
    pub key: PlanKey,
}

impl Place {
    pub(crate) fn top(key: PlanKey) -> Place
        ensures { result ≡ at_top key }
    {
        Place { node: None, key }
    }

    pub(crate) fn in_node(node: u32, key: PlanKey) -> Place
        ensures { result ≡ in_node node key }
    {
        Place {
            node: Some(node),
            key,
        }
    }
}

/// Why a document is no plan: the first rule that it breaks.
#[derive(Clone, Copy, Debug, PartialEq, Eq)]
pub enum PlanRefusal {
    /// The bytes are no JSON text.
    Syntax,
    /// A needed key is missing, a value isn't of the key's form, a key isn't listed, or two keys stand that
    /// exclude each other; or a side input doesn't have one input.
    Field(Place),
    /// A word isn't known, an input or a view names no node, a string's length isn't allowed, or the windows of
    /// a side input merge.
    Name(Place),
    /// A number isn't whole or is outside its limits, or a tree is too deep, has too many leaves or an empty
    /// list.
    Number(Place),
    /// The plan is read, and is no pipeline.
    Graph(GraphRefusal),
    /// The document is of another version than 1, 2 and 3.
    Version,
    /// The document has this many bytes, which are too many. They aren't read.
    Length(u64),
}

impl PlanRefusal {
    /// Its place in the order above, from 1.
    pub fn number(&self) -> u8
        ensures { result ≡ refusal_number self.now }
    {
        match self {
            PlanRefusal::Syntax => 1,
            PlanRefusal::Field(_) => 2,
            PlanRefusal::Name(_) => 3,
            PlanRefusal::Number(_) => 4,
            PlanRefusal::Graph(_) => 5,
            PlanRefusal::Version => 6,
            PlanRefusal::Length(_) => 7,
        }
    }
}

/// Why no plan was read.
#[derive(Clone, Copy, Debug, PartialEq, Eq)]
pub enum PlanReadRefusal {
    /// The document is no plan.
    Bad(PlanRefusal),
    NoMemory,
}

impl From<PlanRefusal> for PlanReadRefusal {
    ghost use Rattle.plan_reader.specs.declared.refusal.PlanReadRefusal.TheVariants as read;

    ghost from_gives = { λ refusal e. e ≡ read.Bad refusal };

    fn from(refusal: PlanRefusal) -> PlanReadRefusal {
        PlanReadRefusal::Bad(refusal)
    }
}

impl From<NoMemory> for PlanReadRefusal {
    ghost use Rattle.plan_reader.specs.declared.refusal.PlanReadRefusal.TheVariants as read;

    ghost from_gives = { λ _ e. e ≡ read.NoMemory };

    fn from(_e: NoMemory) -> PlanReadRefusal {
        PlanReadRefusal::NoMemory
    }
}

impl From<AllocError> for PlanReadRefusal {
    ghost use Rattle.plan_reader.specs.declared.refusal.PlanReadRefusal.TheVariants as read;

    ghost from_gives = { λ _ e. e ≡ read.NoMemory };

    fn from(_e: AllocError) -> PlanReadRefusal {
        PlanReadRefusal::NoMemory
    }
}

impl<T: Drop> From<AllocFailed<T>> for PlanReadRefusal {
    ghost use Rattle.plan_reader.specs.declared.refusal.PlanReadRefusal.TheVariants as read;

    ghost from_gives = { λ _ e. e ≡ read.NoMemory };

    fn from(_e: AllocFailed<T>) -> PlanReadRefusal {
        PlanReadRefusal::NoMemory
    }
}

impl From<CheckRefusal> for PlanReadRefusal {
    ghost use Rattle.plan_reader.specs.Refusals.{graph_refused};

    ghost from_gives = { λ refusal e. e ≡ graph_refused refusal };

    fn from(refusal: CheckRefusal) -> PlanReadRefusal {
        match refusal {
            CheckRefusal::Bad(refusal) => PlanReadRefusal::Bad(PlanRefusal::Graph(refusal)),
            CheckRefusal::NoMemory => PlanReadRefusal::NoMemory,
        }
    }
}
