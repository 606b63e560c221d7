ghost use Rattle.std.specs.Prelude.{◌≡◌, Some};
ghost use Rattle.beam_coders.specs.Reading.{signed};
ghost use Rattle.value_forms.specs.Numbers.{bits_at};

use crate::parts::{append_number, int_of};
use crate::{FormRefusal, Stored};
use beam_values::{Bytes, Mark, NoMemory, Time, Value, unsigned_bits};
use std::alloc::Global;

const HALF: u64 = 0x8000_0000_0000_0000;

/// The signed number with these 64 bits.
fn signed_of(bits: u64) -> i64
    ensures { result ≡ signed bits }
{
    if bits < HALF {
        bits as i64
    } else {
        -((u64::MAX - bits) as i64) - 1
    }
}

/// The 64 bits of a signed number.
fn bits_of(number: i64) -> u64
    ensures { bits_at number ≡ Some result }
{
    unsigned_bits(number)
}

impl Stored for u8 {
    ghost use Rattle.value_forms.specs.Numbers.{u8_form};

    ghost form = { u8_form };

    fn write(&self, out: &mut Bytes) -> Result<(), NoMemory> {
        append_number(i64::from(*self), out)
    }

    fn read(_alloc: Global, value: &Value) -> Result<u8, FormRefusal> {
        let number = int_of(value)?;
        u8::try_from(number).map_err(|_| FormRefusal::Shape)
    }
}

impl Stored for u32 {
    ghost use Rattle.value_forms.specs.Numbers.{u32_form};

    ghost form = { u32_form };

    fn write(&self, out: &mut Bytes) -> Result<(), NoMemory> {
        append_number(i64::from(*self), out)
    }

    fn read(_alloc: Global, value: &Value) -> Result<u32, FormRefusal> {
        let number = int_of(value)?;
        if number < 0 || number > u32::MAX as i64 {
            return Err(FormRefusal::Shape);
        }
        Ok(number as u32)
    }
}

/// By its 64 bits in two's complement.
impl Stored for u64 {
    ghost use Rattle.value_forms.specs.Numbers.{bits_form};

    ghost form = { bits_form };

    fn write(&self, out: &mut Bytes) -> Result<(), NoMemory> {
        append_number(signed_of(*self), out)
    }

    fn read(_alloc: Global, value: &Value) -> Result<u64, FormRefusal> {
        Ok(bits_of(int_of(value)?))
    }
}

impl Stored for i64 {
    ghost use Rattle.value_forms.specs.Numbers.{signed_form};

    ghost form = { signed_form };

    fn write(&self, out: &mut Bytes) -> Result<(), NoMemory> {
        append_number(*self, out)
    }

    fn read(_alloc: Global, value: &Value) -> Result<i64, FormRefusal> {
        int_of(value)
    }
}

/// False is 0 and true is 1.
impl Stored for bool {
    ghost use Rattle.value_forms.specs.Numbers.{flag_form};

    ghost form = { flag_form };

    fn write(&self, out: &mut Bytes) -> Result<(), NoMemory> {
        let number = if *self { 1 } else { 0 };
        append_number(number, out)
    }

    fn read(_alloc: Global, value: &Value) -> Result<bool, FormRefusal> {
        match int_of(value)? {
            0 => Ok(false),
            1 => Ok(true),
            _ => Err(FormRefusal::Shape),
        }
    }
}

impl Stored for Time {
    ghost use Rattle.value_forms.specs.Numbers.{time_form};

    ghost form = { time_form };

    fn write(&self, out: &mut Bytes) -> Result<(), NoMemory> {
        append_number(self.ms(), out)
    }

    fn read(_alloc: Global, value: &Value) -> Result<Time, FormRefusal> {
        let ms = int_of(value)?;
        Time::new(ms).ok_or(FormRefusal::Shape)
    }
}

impl Stored for Mark {
    ghost use Rattle.value_forms.specs.Numbers.{mark_form};

    ghost form = { mark_form };

    fn write(&self, out: &mut Bytes) -> Result<(), NoMemory> {
        append_number(self.ms(), out)
    }

    fn read(_alloc: Global, value: &Value) -> Result<Mark, FormRefusal> {
        let ms = int_of(value)?;
        if ms == i64::MAX {
            return Ok(Mark::FINAL);
        }
        match Time::new(ms) {
            Some(time) => Ok(Mark::at(time)),
            None => Err(FormRefusal::Shape),
        }
    }
}
