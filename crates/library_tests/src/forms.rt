//! A piece and a strategy as bytes, worked out by hand, and values that aren't of their forms.

use beam_coders::read_value;
use beam_values::{Bytes, Piece, Range, Strategy, Time};
use std::alloc::Global;
use std::test::Fail;
use value_forms::{FormRefusal, Stored};

// What the spelling of a value is read as.
fn read<T: Stored>(alloc: Global, spelling: &[u8]) -> Result<Result<T, FormRefusal>, Fail> {
    match read_value(alloc, spelling) {
        Ok((value, _)) => Ok(T::read(alloc, &value)),
        Err(_) => Err("no value".into()),
    }
}

#[test]
fn a_piece_is_the_seq_of_its_fields(rt: HostRuntime) -> Result<(), Fail> {
    let piece = Piece {
        node: 0,
        item: 0,
        range: Range::new(10, 27).ok_or("no range")?,
        seen: Time::LEAST,
        attempts: 0,
        spent: None,
    };
    // A Seq of six: two Ints 0, a Seq of 10 and 27, the least time, an Int 0, and an empty Seq.
    let spelling: &[u8] = &[
        4, 6, 1, 0, 1, 0, 4, 2, 1, 10, 1, 27, 1, 0x89, 0xd8, 0xf2, 0xd0, 0xc5, 0xec, 0xce, 0xef,
        0xff, 1, 1, 0, 4, 0,
    ];
    let mut out = Bytes::new(rt.alloc());
    piece.write(&mut out)?;
    assert_eq!(rt; out.as_slice(), spelling);
    assert_eq!(rt; read::<Piece>(rt.alloc(), spelling)?, Ok(piece));
    // With the range from 27 to 10, and with a field more.
    let back: &[u8] = &[4, 6, 1, 0, 1, 0, 4, 2, 1, 27, 1, 10, 1, 0, 1, 0, 4, 0];
    assert_eq!(rt; read::<Piece>(rt.alloc(), back)?, Err(FormRefusal::Shape));
    let more: &[u8] = &[4, 7, 1, 0, 1, 0, 4, 2, 1, 10, 1, 27, 1, 0, 1, 0, 4, 0, 1, 0];
    assert_eq!(rt; read::<Piece>(rt.alloc(), more)?, Err(FormRefusal::Shape));
    Ok(())
}

#[test]
fn a_strategy_is_its_place_and_its_fields(rt: HostRuntime) -> Result<(), Fail> {
    let strategy = Strategy::Sliding {
        size: 10,
        period: -1,
    };
    // A Pair of the Int 2 and a Seq of 10 and -1, whose 64 bits are all set.
    let spelling: &[u8] = &[
        3, 1, 2, 4, 2, 1, 10, 1, 0xff, 0xff, 0xff, 0xff, 0xff, 0xff, 0xff, 0xff, 0xff, 1,
    ];
    let mut out = Bytes::new(rt.alloc());
    strategy.write(&mut out)?;
    assert_eq!(rt; out.as_slice(), spelling);
    assert_eq!(rt; read::<Strategy>(rt.alloc(), spelling)?, Ok(strategy));
    assert_eq!(rt;
        read::<Strategy>(rt.alloc(), &[3, 1, 4, 4, 0])?,
        Ok(Strategy::Kept)
    );
    assert_eq!(rt;
        read::<Strategy>(rt.alloc(), &[3, 1, 5, 4, 0])?,
        Err(FormRefusal::Shape)
    );
    assert_eq!(rt;
        read::<Strategy>(rt.alloc(), &[3, 1, 4, 4, 1, 0])?,
        Err(FormRefusal::Shape)
    );
    Ok(())
}
