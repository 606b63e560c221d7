//! Where the positions of a job are claimed, as in turns of a table: the work on a job knows of no table.

/// Claims positions for one slot. What is promised of a job's work rests on what is known of the job alone.
pub trait Claims {
    /// What a claim changes, as a worker's pass of a table.
    type Pass;

    ghost use Rattle.std.specs.Prelude.{Option, nat_lt};
    ghost use Rattle.known_jobs.specs.Calls.{AfterClaim, CanClaimAs, EndsAt};
    ghost use Rattle.known_jobs.specs.Jobs.{KnownJob};

    /// The pass is one that claims can be made with.
    ghost is_of: { Self → Self.Pass → Type 0 };

    /// The job that is worked, as the pass knows it.
    ghost known: { Self → Self.Pass → Option KnownJob };

    /// Claims alone lead from the one to the other.
    ghost stays: { Self → Self.Pass → Self.Pass → Type 0 };

    /// Claims a position. Answers the end of the range: a position below it is granted.
    fn claim_end(&self, pass: &mut Self::Pass, p: u64) -> u64
        requires own { is_of self.now pass.old }
        requires may { CanClaimAs (known self.now pass.old) p }
        ensures own { is_of self.now pass.new }
        ensures told { AfterClaim (known self.now pass.old) p (nat_lt p result)
            (known self.now pass.new) }
        ensures end { EndsAt (known self.now pass.new) result }
        ensures stays { stays self.now pass.old pass.new };

    /// No claim is made.
    ghost stays_same: { (claims : Self) (pass : Self.Pass) → stays claims pass pass };

    /// Claims follow on claims.
    ghost stays_on: { (claims : Self) (first next last : Self.Pass)
        → stays claims first next → stays claims next last → stays claims first last };
}
