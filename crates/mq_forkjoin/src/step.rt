// The jobs of a fork-join.
ghost use Rattle.std.specs.Prelude.{◌≡◌, ◌<◌, ◌^◌, All, length, slice_index};
ghost use Rattle.mq_forkjoin.specs.Runs.{IsForkJoinLoad, asked_at, job_run};

use mq_asked::Asked;
use mq_base::List;
use mq_core::Stream;

/// The jobs of a fork-join, which act on the latest departure from each of its servers, branch by branch: before the
/// first job each is 0.
#[derive(Clone, Copy)]
pub struct ForkJoinStep<'a> {
    /// The arrival times, by position, in ticks.
    pub arrive: &'a List<u64>,
    /// The demands at each server, branch by branch, by position, in ticks of service.
    pub demands: &'a List<Asked<'a>>,
    /// For each server, at most 8, whether it is the first of its branch.
    pub begins: &'a List<bool>,
    ghost load: { IsForkJoinLoad arrive.now begins.now demands.now },
}

impl<'a> ForkJoinStep<'a> {
    /// Returns the jobs of a stream. Takes no memory.
    pub fn new(
        stream: &'a Stream,
        demands: &'a List<Asked<'a>>,
        begins: &'a List<bool>,
    ) -> ForkJoinStep<'a>
        requires { IsForkJoinLoad stream.now.time begins.now demands.now }
        ensures arrive { result.arrive.now ≡ stream.now.time }
        ensures demands { result.demands.now ≡ demands.now }
        ensures begins { result.begins.now ≡ begins.now }
    {
        ForkJoinStep {
            arrive: &stream.time,
            demands,
            begins,
        }
    }

    /// Lets the job at an index pass all branches, and updates the latest departures.
    pub fn serve(&self, last: &mut [u64; 8], at: usize)
        requires inside { at < length self.now.arrive.now }
        requires fits { All (λ time. time < 2 ^ 64) (job_run (slice_index self.now.arrive.now at) 0 self.now.begins.now (asked_at self.now.demands.now at) last.old) }
        ensures { last.new ≡ job_run (slice_index self.now.arrive.now at) 0 self.now.begins.now (asked_at self.now.demands.now at) last.old }
    {
        let came = *self.arrive.get(at);
        let mut time = 0u64;
        for server in 0..self.begins.len() {
            let begun = if *self.begins.get(server) { came } else { time };
            time = begun.max(last[server]) + self.demands.get(server).at(at);
            last[server] = time;
        }
    }
}
