// Counts kept over the stages of a run.
ghost use Rattle.std.specs.Prelude.{◌≡◌};
ghost use Rattle.sq_moves.specs.Prelude.{IsOpening};
ghost use Rattle.sq_live.specs.Account.{first_account};

use crate::job_list::JobList;
use sq_audit::Job;
use sq_moves::Opening;
use std::marker::Model;

/// The opening and the jobs that the next audit uses, and counts over the logs already folded. To a
/// contract it is an `AccountValue`.
#[derive(Drop)]
pub(crate) struct Account {
    pub(crate) opening: Opening,
    pub(crate) jobs: Vec<Job>,
    /// How many jobs the folded logs answered.
    pub(crate) answered: u64,
    /// How many of their receipts are of commits.
    pub(crate) committed: u64,
}

impl Model for Account {
    ghost use Rattle.sq_live.specs.Account.{AccountValue, IsAccount};

    ghost Value = { AccountValue };

    ghost view = { λ a. record {
      opening = a.opening;
      jobs = a.jobs.items;
      answered = a.answered;
      committed = a.committed;
    } };

    ghost invariant = { λ a. IsAccount (record {
      opening = a.opening;
      jobs = a.jobs.items;
      answered = a.answered;
      committed = a.committed;
    }) };
}

impl Account {
    /// Returns the account of a run of `jobs` before its first stage.
    pub(crate) fn new(opening: Opening, jobs: JobList) -> Account
        requires { IsOpening opening }
        ensures { result ≡ first_account opening jobs }
    {
        Account {
            opening,
            jobs: jobs.into_jobs(),
            answered: 0,
            committed: 0,
        }
    }
}
