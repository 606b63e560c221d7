//! Attempts at the limit, and counts at the greatest number, counted by hand.

use crate::{FaultShare, Next, next_attempt};
use beam_values::Cause;
use std::test::Fail;

#[test]
fn work_is_given_up_at_the_limit(rt: HostRuntime) -> Result<(), Fail> {
    assert_eq!(rt; next_attempt(0, 1), Next::Spent);
    assert_eq!(rt; next_attempt(0, 3), Next::Retry(1));
    assert_eq!(rt; next_attempt(2, 3), Next::Spent);
    assert_eq!(rt; next_attempt(u32::MAX - 1, u32::MAX), Next::Spent);
    Ok(())
}

#[test]
fn faults_are_counted_by_their_cause(rt: HostRuntime) -> Result<(), Fail> {
    let mut share = FaultShare::new();
    for (cause, n, calls, reads) in [
        (Cause::Call, 2, 2, 0),
        (Cause::Read, 5, 2, 5),
        (Cause::Call, 1, 3, 5),
        (Cause::Call, u64::MAX - 3, u64::MAX, 5),
        (Cause::Call, 1, u64::MAX, 5),
        (Cause::Read, u64::MAX, u64::MAX, u64::MAX),
    ] {
        share.rise(cause, n);
        assert_eq!(rt; share, FaultShare { calls, reads });
    }
    Ok(())
}
