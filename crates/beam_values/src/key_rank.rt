use crate::Value;

/// Numbers that mostly compare as keys do: the length of the key and its first fifteen bytes. They lie
/// side by side where keys lie scattered, so what is to be sorted by keys is sorted by ranks first, after
/// which most of it is in order. No contract says how ranks compare: the sort by keys makes the order.
#[derive(Clone, Copy, Debug, PartialEq, Eq, PartialOrd, Ord)]
pub struct KeyRank {
    /// The length up to 255, and then seven bytes.
    first: u64,
    /// Eight bytes more.
    second: u64,
}

/// A length from which on lengths rank alike.
const LONG: usize = 255;

impl KeyRank {
    /// Keys that are neither numbers nor bytes share a rank. Takes no memory.
    pub fn of(key: &Value) -> KeyRank {
        match key {
            Value::Int(number) => KeyRank {
                first: 0,
                second: first_groups(number.cast_unsigned()),
            },
            Value::Blob(bytes) => {
                let bytes = bytes.as_slice();
                let (start, rest) = bytes.split_at(bytes.len().min(7));
                KeyRank {
                    first: followed_by(bytes.len().min(LONG) as u64, start, 7),
                    second: followed_by(0, rest, 8),
                }
            }
            _ => KeyRank {
                first: 0,
                second: 0,
            },
        }
    }
}

/// A number and the first `count` bytes after it as one number, with zeros for those that are missing.
fn followed_by(number: u64, bytes: &[u8], count: usize) -> u64 {
    let mut number = number;
    for at in 0..count {
        let byte = bytes.get(at).copied().unwrap_or(0);
        number = number.rotate_left(8) ^ u64::from(byte);
    }
    number
}

/// The first eight groups of the varint of a number, least group first, as keys that are numbers compare.
fn first_groups(number: u64) -> u64 {
    let mut left = number;
    let mut groups: u64 = 0;
    for _ in 0..8 {
        let more = if left < 128 { 0 } else { 128 };
        groups = groups.rotate_left(8) ^ (left % 128 + more);
        left /= 128;
    }
    groups
}
