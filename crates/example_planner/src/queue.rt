//! Jobs, served by their ranks, and in the order in which they came where ranks are equal.
ghost use Rattle.std.specs.Prelude.{◌≡◌, ◌+◌, ◌*◌, ◌^◌, ◌==◌, ◌&&◌, ◌||◌, nat_lt};

use iddqd_id::IdHashItem;
use iddqd_sorted::Sortable;

/// A job, known by its number. Jobs of low ranks are served first, and those of one rank in the order of their arrivals.
#[derive(Clone, Copy)]
pub struct Job {
    pub number: u64,
    pub rank: u32,
    pub arrival: u32,
}

impl IdHashItem for Job {
    type Key = u64;

    ghost key = { λ j. j.number };

    fn key(&self) -> &u64 {
        &self.number
    }
}

impl Sortable for Job {
    type SortKey = u64;

    ghost sort_key = { λ j. j.rank * 2 ^ 32 + j.arrival };

    fn sort_key(&self) -> u64 {
        self.rank as u64 * 0x1_0000_0000 + self.arrival as u64
    }
}

/// Returns whether a job is served before another one: if its rank is lower, or the ranks are equal and it came earlier. One
/// comparison of two numbers tells, since both parts fit.
pub fn is_before(job: &Job, other: &Job) -> bool
    ensures { result ≡ (nat_lt job.now.rank other.now.rank
        || (job.now.rank == other.now.rank && nat_lt job.now.arrival other.now.arrival)) }
{
    // The prover knows that an arrival fits its type once it is read.
    let (_arrival, _other) = (job.arrival, other.arrival);
    job.sort_key() < other.sort_key()
}
