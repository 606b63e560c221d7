ghost use Rattle.std.specs.Prelude.{◌≡◌};

use beam_values::NoMemory;
use std::alloc::{AllocError, AllocFailed};
use std::error::Error;
use std::fmt;

/// Why a value was read as nothing.
#[derive(Clone, Copy, Debug, PartialEq, Eq)]
pub enum FormRefusal {
    /// The value isn't of the form, or a number in it is out of its bounds.
    Shape,
    NoMemory,
}

impl fmt::Display for FormRefusal {
    ghost use Rattle.std.specs.Prelude.{Some};
    ghost use Rattle.value_forms.specs.Messages.{form_message};

    ghost output = { λ refusal. Some (form_message refusal) };

    fn fmt<W: fmt::Write>(&self, f: &mut fmt::Formatter<W>) -> fmt::Result {
        match self {
            FormRefusal::Shape => write!(f, "the value is not of the form"),
            FormRefusal::NoMemory => write!(f, "no memory"),
        }
    }
}

impl Error for FormRefusal {}

impl From<NoMemory> for FormRefusal {
    ghost use Rattle.value_forms.specs.declared.refusal.FormRefusal.TheVariants as refusals;

    ghost from_gives = { λ _ e. e ≡ refusals.NoMemory };

    fn from(_e: NoMemory) -> FormRefusal {
        FormRefusal::NoMemory
    }
}

impl From<AllocError> for FormRefusal {
    ghost use Rattle.value_forms.specs.declared.refusal.FormRefusal.TheVariants as refusals;

    ghost from_gives = { λ _ e. e ≡ refusals.NoMemory };

    fn from(_e: AllocError) -> FormRefusal {
        FormRefusal::NoMemory
    }
}

impl<T: Drop> From<AllocFailed<T>> for FormRefusal {
    ghost use Rattle.value_forms.specs.declared.refusal.FormRefusal.TheVariants as refusals;

    ghost from_gives = { λ _ e. e ≡ refusals.NoMemory };

    fn from(_e: AllocFailed<T>) -> FormRefusal {
        FormRefusal::NoMemory
    }
}
