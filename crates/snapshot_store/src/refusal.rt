ghost use Rattle.std.specs.Prelude.{◌≡◌};

use beam_coders::ReadRefusal;
use beam_values::NoMemory;
use snapshot_refusal::SnapRefusal;
use std::error::Error;
use std::fmt;
use value_forms::FormRefusal;

/// Why no snapshot was read.
#[derive(Clone, Copy, Debug, PartialEq, Eq)]
pub enum SnapReadRefusal {
    /// The bytes aren't those of a snapshot.
    Bad(SnapRefusal),
    NoMemory,
}

impl fmt::Display for SnapReadRefusal {
    ghost use Rattle.std.specs.Prelude.{Some};
    ghost use Rattle.snapshot_store.specs.Messages.{snap_read_message};

    ghost output = { λ refusal. Some (snap_read_message refusal) };

    fn fmt<W: fmt::Write>(&self, f: &mut fmt::Formatter<W>) -> fmt::Result {
        match self {
            SnapReadRefusal::Bad(_) => write!(f, "the bytes are no snapshot"),
            SnapReadRefusal::NoMemory => write!(f, "no memory"),
        }
    }
}

impl Error for SnapReadRefusal {}

impl From<SnapRefusal> for SnapReadRefusal {
    ghost use Rattle.snapshot_store.specs.declared.refusal.SnapReadRefusal.TheVariants.{Bad};

    ghost from_gives = { λ refusal e. e ≡ Bad refusal };

    fn from(refusal: SnapRefusal) -> SnapReadRefusal {
        SnapReadRefusal::Bad(refusal)
    }
}

impl From<ReadRefusal> for SnapReadRefusal {
    ghost use Rattle.snapshot_store.specs.Answers.{after_reading};

    ghost from_gives = { λ refusal e. e ≡ after_reading refusal };

    fn from(refusal: ReadRefusal) -> SnapReadRefusal {
        match refusal {
            ReadRefusal::Bad(refusal) => SnapReadRefusal::Bad(SnapRefusal::Coder(refusal)),
            ReadRefusal::NoMemory => SnapReadRefusal::NoMemory,
        }
    }
}

impl From<FormRefusal> for SnapReadRefusal {
    ghost use Rattle.snapshot_store.specs.Answers.{after_form};

    ghost from_gives = { λ refusal e. e ≡ after_form refusal };

    fn from(refusal: FormRefusal) -> SnapReadRefusal {
        match refusal {
            FormRefusal::Shape => SnapReadRefusal::Bad(SnapRefusal::Shape),
            FormRefusal::NoMemory => SnapReadRefusal::NoMemory,
        }
    }
}

impl From<NoMemory> for SnapReadRefusal {
    ghost use Rattle.snapshot_store.specs.declared.refusal.SnapReadRefusal.TheVariants as refusals;

    ghost from_gives = { λ _ e. e ≡ refusals.NoMemory };

    fn from(_e: NoMemory) -> SnapReadRefusal {
        SnapReadRefusal::NoMemory
    }
}
