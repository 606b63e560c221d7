ghost use Rattle.std.specs.Prelude.{◌≡◌, ◌+◌, ◌<◌, if◌then◌else◌, nat_lt};

/// What comes after an attempt that failed.
#[derive(Clone, Copy, Debug, PartialEq, Eq)]
pub enum Next {
    /// The work is tried again, after so many attempts.
    Retry(u32),
    /// The work is given up.
    Spent,
}

/// What comes after one more attempt than `attempts` has failed, where `limit` attempts are allowed.
pub fn next_attempt(attempts: u32, limit: u32) -> Next
    requires { attempts < limit }
    ensures { result
        ≡ (if nat_lt (attempts + 1) limit then Next.Retry (attempts + 1) else Next.Spent) }
{
    let made = attempts + 1;
    if made < limit {
        Next::Retry(made)
    } else {
        Next::Spent
    }
}
