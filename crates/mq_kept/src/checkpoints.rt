// What is kept of a node besides its visits and streams: where the computation of its jobs can start again.
ghost use Rattle.std.specs.Prelude.{◌≡◌};
ghost use Rattle.mq_kept.specs.Carries.{delay_carries, forkjoin_carries, server_carries, split_carries, split_outs, tandem_carries};

use mq_base::List;
use mq_maxplus::Mp;
use mq_tandem::Latest;

/// The checkpoints of a node, from which its jobs can be computed again: the carry after each of their blocks.
#[derive(Drop)]
pub enum Checkpoints {
    /// None: the jobs of a source depart as they come, and all other nodes without checkpoints are computed whole.
    Nothing,
    /// For a server, the last departure.
    Server(List<Mp>),
    /// For a delay, the departure of the last job.
    Delay(List<u64>),
    /// For a tandem, the latest departures from its stages.
    Tandem(List<Latest>),
    /// For a fork-join, the latest departure from each server.
    ForkJoin(List<[u64; 8]>),
    /// For a split, the output of the last job of each block, and the output of each job, by position.
    Split { carries: List<u8>, outs: List<u8> },
}

impl Checkpoints {
    /// Returns a server's last departure after each block, in ticks; nothing for another kind, or if nothing is kept.
    pub fn server(&self) -> &[Mp]
        ensures { result.now ≡ server_carries self.now }
    {
        match self {
            Checkpoints::Server(carries) => carries.as_slice(),
            Checkpoints::Nothing | Checkpoints::Delay(_) | Checkpoints::Tandem(_) => &[],
            Checkpoints::ForkJoin(_) | Checkpoints::Split { .. } => &[],
        }
    }

    /// Returns the departure of the last job of each block of a delay, in ticks; nothing for another kind, or if
    /// nothing is kept.
    pub fn delay(&self) -> &[u64]
        ensures { result.now ≡ delay_carries self.now }
    {
        match self {
            Checkpoints::Delay(carries) => carries.as_slice(),
            Checkpoints::Nothing | Checkpoints::Server(_) | Checkpoints::Tandem(_) => &[],
            Checkpoints::ForkJoin(_) | Checkpoints::Split { .. } => &[],
        }
    }

    /// Returns the latest departures from a tandem's stages after each block; nothing for another kind, or if nothing
    /// is kept.
    pub fn tandem(&self) -> &[Latest]
        ensures { result.now ≡ tandem_carries self.now }
    {
        match self {
            Checkpoints::Tandem(carries) => carries.as_slice(),
            Checkpoints::Nothing | Checkpoints::Server(_) | Checkpoints::Delay(_) => &[],
            Checkpoints::ForkJoin(_) | Checkpoints::Split { .. } => &[],
        }
    }

    /// Returns the latest departure from each server of a fork-join after each block, in ticks, eight numbers per
    /// block; nothing for another kind, or if nothing is kept.
    pub fn forkjoin(&self) -> &[[u64; 8]]
        ensures { result.now ≡ forkjoin_carries self.now }
    {
        match self {
            Checkpoints::ForkJoin(carries) => carries.as_slice(),
            Checkpoints::Nothing | Checkpoints::Server(_) | Checkpoints::Delay(_) => &[],
            Checkpoints::Tandem(_) | Checkpoints::Split { .. } => &[],
        }
    }

    /// Returns the output of the last job of each block of a split; nothing for another kind, or if nothing is kept.
    pub fn split(&self) -> &[u8]
        ensures { result.now ≡ split_carries self.now }
    {
        match self {
            Checkpoints::Split { carries, .. } => carries.as_slice(),
            Checkpoints::Nothing | Checkpoints::Server(_) | Checkpoints::Delay(_) => &[],
            Checkpoints::Tandem(_) | Checkpoints::ForkJoin(_) => &[],
        }
    }

    /// Returns the output of each job of a split, by position; nothing for another kind, or if nothing is kept.
    pub fn outs(&self) -> &[u8]
        ensures { result.now ≡ split_outs self.now }
    {
        match self {
            Checkpoints::Split { outs, .. } => outs.as_slice(),
            Checkpoints::Nothing | Checkpoints::Server(_) | Checkpoints::Delay(_) => &[],
            Checkpoints::Tandem(_) | Checkpoints::ForkJoin(_) => &[],
        }
    }
}
