use std::alloc::{AllocError, Global};

/// The most that a part of a text is repeated.
const MOST_TIMES: u32 = 2_000_000;

/// A text with each `{COUNT*PART}` written out: the part so many times. Braces round anything else stay.
pub fn expanded(alloc: Global, text: &str) -> Result<String, AllocError> {
    let mut whole = String::new(alloc);
    let mut pieces = text.split('{');
    whole.push_str(pieces.next().unwrap_or(""))?;
    for piece in pieces {
        push_piece(piece, &mut whole)?;
    }
    Ok(whole)
}

// What follows a brace.
fn push_piece(piece: &str, whole: &mut String) -> Result<(), AllocError> {
    let Some((times, part, rest)) = repetition(piece) else {
        whole.push_str("{")?;
        return whole.push_str(piece);
    };
    for _ in 0..times {
        whole.push_str(part)?;
    }
    whole.push_str(rest)
}

fn repetition(piece: &str) -> Option<(u32, &str, &str)> {
    let (repeated, rest) = piece.split_once('}')?;
    let (count, part) = repeated.split_once('*')?;
    let times = count.parse::<u32>().ok()?;
    if times <= MOST_TIMES {
        Some((times, part, rest))
    } else {
        None
    }
}
