// What leaves a network by an output.
ghost use Rattle.std.specs.Prelude.{◌≡◌, ◌+◌, ◌*◌, ◌^◌, ◌<◌, ◌≤◌, All, length, sum};
ghost use Rattle.mq_core.specs.Sequences.{sequence_exit, stream_sojourns};
ghost use Rattle.mq_stats.specs.Exits.{ExitsJoin, IsExitOf, stream_between};
ghost use Rattle.mq_stats.specs.Numbers.{AreLeaving};

use crate::tallies::part;
use mq_base::List;
use mq_core::{Rows, Stream};

/// What leaves a network by an output.
#[derive(Clone, Copy, PartialEq, Eq, Drop)]
pub struct Exit {
    /// The number of jobs that leave.
    pub count: u32,
    /// The sum, in ticks, of the times from their arrival in the trace to their leaving.
    pub sojourn: u128,
}

// Returns the summed time in the network, in ticks, of these jobs, which leave at these times.
fn sojourns_of(rows: &Rows, job: &[u32], time: &[u64]) -> u128
    requires jobs { All (λ job. job < length rows.now.time) job.now }
    requires few { length job.now ≤ 1048576 }
    requires even { length job.now ≡ length time.now }
    ensures sum { result ≡ sum (stream_sojourns rows.now job.now time.now) }
    ensures small { result ≤ length job.now * 2 ^ 64 }
{
    let mut sojourn: u128 = 0;
    for at in 0..job.len() {
        let entered = *rows.time.get(job[at] as usize);
        sojourn += time[at].saturating_sub(entered) as u128;
    }
    sojourn
}

/// Returns how many jobs a stream has from one position up to another, and their summed time in the network, in ticks. The stream is given
/// as its jobs and their times.
pub fn columns_between(rows: &Rows, jobs: &List<u32>, times: &List<u64>, from: u32, to: u32) -> Exit
    requires leaving { AreLeaving rows.now (record { job = jobs.now; time = times.now }) }
    requires order { from ≤ to }
    requires within { to ≤ length jobs.now }
    ensures { IsExitOf rows.now (stream_between from to (record { job = jobs.now; time = times.now })) result }
{
    let job = part(jobs, from, to);
    let time = part(times, from, to);
    Exit {
        count: job.len() as u32,
        sojourn: sojourns_of(rows, job, time),
    }
}

/// Returns how many jobs a stream has from one position up to another, and their summed time in the network, in ticks.
pub fn leaving_between(rows: &Rows, stream: &Stream, from: u32, to: u32) -> Exit
    requires leaving { AreLeaving rows.now stream.now }
    requires order { from ≤ to }
    requires within { to ≤ length stream.now.job }
    ensures { IsExitOf rows.now (stream_between from to stream.now) result }
{
    columns_between(rows, &stream.job, &stream.time, from, to)
}

/// Adds what leaves by the part of a stream before a position to what leaves by the part from that position on. Together the parts have at
/// most 1,048,576 jobs.
pub fn exits_added(before: &Exit, after: &Exit) -> Exit
    requires before { before.now.sojourn ≤ before.now.count * 2 ^ 64 }
    requires after { after.now.sojourn ≤ after.now.count * 2 ^ 64 }
    requires few { before.now.count + after.now.count ≤ 1048576 }
    ensures count { result.count ≡ before.now.count + after.now.count }
    ensures sojourn { result.sojourn ≡ before.now.sojourn + after.now.sojourn }
{
    Exit {
        count: before.count + after.count,
        sojourn: before.sojourn + after.sojourn,
    }
}

/// Proves that the exits of neighbouring parts of a stream add up to the exit of both parts, and that the part from the first job to the
/// last is the whole stream. It does nothing at run time.
pub fn exits_join()
    ensures { ExitsJoin }
{}

/// Returns how many jobs a stream has, and their summed time in the network, in ticks.
pub fn leaving(rows: &Rows, stream: &Stream) -> Exit
    requires { AreLeaving rows.now stream.now }
    ensures { (result.count, result.sojourn) ≡ sequence_exit rows.now stream.now }
{
    exits_join();
    leaving_between(rows, stream, 0, stream.job.len() as u32)
}
