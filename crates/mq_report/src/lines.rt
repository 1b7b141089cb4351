// The lines of a report.
ghost use Rattle.std.specs.Prelude.{◌≡◌, ◌≤◌, ◌<◌, ◌^◌, ◌++◌, option_map};
ghost use Rattle.mq_outside.specs.Outside.{Adds};
ghost use Rattle.mq_report.specs.Text.{exit_line, head_line, jobs_line, kind_word as word_of_kind, last_digits, node_counts, node_line, node_losses, node_tail, node_tallies, node_waits, node_words, ten_thousandths, utilisation as utilisation_of, utilisation_text};
ghost use Rattle.mq_core.specs.Results.{servers_in};
ghost use Rattle.mq_stats.specs.Numbers.{totals_from};
ghost use Rattle.mq_report.specs.Tails.{tail_from};

use mq_core::{Kind, servers_of};
use mq_outside::{Gather, Piece, Sink, SinkFault, add_pieces};
use mq_stats::{Exit, NodeTotals, Percentiles};

/// Adds the first line, which names the form of the report, and the line with the jobs and the
/// span.
#[tactic(auto, unfolding(crate::specs::Text::head_line, crate::specs::Text::jobs_line))]
pub fn add_head<O: Sink>(
    out: &mut O,
    pending: &mut Gather,
    form: u8,
    jobs: usize,
    span: u64,
) -> Result<(), SinkFault>
    ensures { Adds O.taken O.sure O.faults out.old out.new pending.old pending.new result (head_line form ++ jobs_line jobs span) }
{
    add_pieces(
        out,
        pending,
        &[
            Piece::Text(b"mpsim report "),
            Piece::Number(form as u128),
            Piece::Text(b"\njobs "),
            Piece::Number(jobs as u128),
            Piece::Text(b" span "),
            Piece::Number(span as u128),
            Piece::Text(b"\n"),
        ],
    )
}

fn kind_word(kind: &Kind) -> &'static [u8]
    ensures { result.now ≡ word_of_kind kind.now }
{
    match kind {
        Kind::Source => b"source",
        Kind::Server(_) => b"server",
        Kind::Delay(_) => b"delay",
        Kind::Loss { .. } => b"loss",
        Kind::Tandem(_) => b"tandem",
        Kind::ForkJoin(_) => b"forkjoin",
        Kind::Split(_) => b"split",
        Kind::Fork { .. } => b"fork",
        Kind::Join => b"join",
        Kind::Trunk { .. } => b"trunk",
    }
}

// Returns the share of their time in which servers work, in ten-thousandths, rounded down.
fn utilisation(busy: u128, servers: u8, span: u64) -> u128
    requires busy { busy < 2 ^ 100 }
    requires servers { 0 < servers }
    ensures { result ≡ utilisation_of busy servers span }
{
    if span == 0 {
        return 0;
    }
    10_000 * busy / (servers as u128 * span as u128)
}

// Returns the last four digits of a number below 10,000, as text.
fn four_digits(n: u128) -> [u8; 4]
    requires { n < 10000 }
    ensures { result ≡ last_digits n }
{
    [
        (48 + n / 1000) as u8,
        (48 + n / 100 % 10) as u8,
        (48 + n / 10 % 10) as u8,
        (48 + n % 10) as u8,
    ]
}

// Adds a number of ten-thousandths as a decimal fraction, and the line feed.
#[tactic(auto, unfolding(crate::specs::Text::ten_thousandths))]
fn add_share<O: Sink>(out: &mut O, pending: &mut Gather, share: u128) -> Result<(), SinkFault>
    ensures { Adds O.taken O.sure O.faults out.old out.new pending.old pending.new result (ten_thousandths share) }
{
    let digits = four_digits(share % 10_000);
    add_pieces(
        out,
        pending,
        &[
            Piece::Number(share / 10_000),
            Piece::Text(b"."),
            Piece::Text(&digits),
            Piece::Text(b"\n"),
        ],
    )
}

// Adds the utilisation, or a dash if there are no servers, and the line feed.
#[tactic(auto, unfolding(crate::specs::Text::utilisation_text))]
fn add_utilisation<O: Sink>(
    out: &mut O,
    pending: &mut Gather,
    busy: u128,
    servers: u8,
    span: u64,
) -> Result<(), SinkFault>
    requires { busy < 2 ^ 100 }
    ensures { Adds O.taken O.sure O.faults out.old out.new pending.old pending.new result (utilisation_text busy servers span) }
{
    if servers == 0 {
        return add_pieces(out, pending, &[Piece::Text(b"-\n")]);
    }
    add_share(out, pending, utilisation(busy, servers, span))
}

// Adds a node's name, the word for its kind, and its counts.
#[tactic(auto, unfolding(crate::specs::Text::node_words, crate::specs::Text::node_counts))]
fn add_name_and_counts<O: Sink>(
    out: &mut O,
    pending: &mut Gather,
    name: &[u8],
    kind: &Kind,
    totals: &NodeTotals,
) -> Result<(), SinkFault>
    ensures { Adds O.taken O.sure O.faults out.old out.new pending.old pending.new result (node_words name.now (word_of_kind kind.now) ++ node_counts (totals_from totals.now)) }
{
    add_pieces(
        out,
        pending,
        &[
            Piece::Text(b"node "),
            Piece::Text(name),
            Piece::Text(b" "),
            Piece::Text(kind_word(kind)),
            Piece::Text(b" in "),
            Piece::Number(totals.came as u128),
            Piece::Text(b" out "),
            Piece::Number(totals.left as u128),
            Piece::Text(b" lost "),
        ],
    )
}

// Adds the number of lost visits and, if the report gives it, the number of held ones.
#[tactic(auto, unfolding(crate::specs::Text::node_losses))]
fn add_losses<O: Sink>(
    out: &mut O,
    pending: &mut Gather,
    tells_held: bool,
    totals: &NodeTotals,
) -> Result<(), SinkFault>
    ensures { Adds O.taken O.sure O.faults out.old out.new pending.old pending.new result (node_losses tells_held (totals_from totals.now)) }
{
    if tells_held {
        return add_pieces(
            out,
            pending,
            &[
                Piece::Number(totals.lost as u128),
                Piece::Text(b" held "),
                Piece::Number(totals.held as u128),
                Piece::Text(b" wait "),
            ],
        );
    }
    add_pieces(
        out,
        pending,
        &[Piece::Number(totals.lost as u128), Piece::Text(b" wait ")],
    )
}

// Adds the sum of a node's waits and the longest wait.
#[tactic(auto, unfolding(crate::specs::Text::node_waits))]
fn add_waits<O: Sink>(
    out: &mut O,
    pending: &mut Gather,
    totals: &NodeTotals,
) -> Result<(), SinkFault>
    ensures { Adds O.taken O.sure O.faults out.old out.new pending.old pending.new result (node_waits (totals_from totals.now)) }
{
    add_pieces(
        out,
        pending,
        &[
            Piece::Number(totals.wait),
            Piece::Text(b" max "),
            Piece::Number(totals.longest as u128),
        ],
    )
}

// Adds the percentiles of a node's waits, if the report gives them.
#[tactic(auto, unfolding(crate::specs::Text::node_tail))]
fn add_tail<O: Sink>(
    out: &mut O,
    pending: &mut Gather,
    tail: Option<Percentiles>,
) -> Result<(), SinkFault>
    ensures { Adds O.taken O.sure O.faults out.old out.new pending.old pending.new result (node_tail (option_map tail_from tail)) }
{
    match tail {
        None => add_pieces(out, pending, &[Piece::Text(b" busy ")]),
        Some(tail) => add_pieces(
            out,
            pending,
            &[
                Piece::Text(b" p50 "),
                Piece::Number(tail.p50 as u128),
                Piece::Text(b" p90 "),
                Piece::Number(tail.p90 as u128),
                Piece::Text(b" p99 "),
                Piece::Number(tail.p99 as u128),
                Piece::Text(b" busy "),
            ],
        ),
    }
}

// Adds a node's busy time, area and peak.
#[tactic(auto, unfolding(crate::specs::Text::node_tallies))]
fn add_tallies<O: Sink>(
    out: &mut O,
    pending: &mut Gather,
    totals: &NodeTotals,
) -> Result<(), SinkFault>
    ensures { Adds O.taken O.sure O.faults out.old out.new pending.old pending.new result (node_tallies (totals_from totals.now)) }
{
    add_pieces(
        out,
        pending,
        &[
            Piece::Number(totals.busy),
            Piece::Text(b" area "),
            Piece::Number(totals.area),
            Piece::Text(b" peak "),
            Piece::Number(totals.peak as u128),
            Piece::Text(b" util "),
        ],
    )
}

/// Adds the line of a node, with its held visits and the percentiles of its waits if the report
/// gives them.
pub fn add_node<O: Sink>(
    out: &mut O,
    pending: &mut Gather,
    tells_held: bool,
    name: &[u8],
    kind: &Kind,
    totals: &NodeTotals,
    tail: Option<Percentiles>,
    span: u64,
) -> Result<(), SinkFault>
    requires servers { servers_in kind.now ≤ 255 }
    requires small { totals.now.busy < 2 ^ 100 }
    ensures { Adds O.taken O.sure O.faults out.old out.new pending.old pending.new result (node_line tells_held name.now kind.now (totals_from totals.now) (option_map tail_from tail) span) }
{
    add_name_and_counts(out, pending, name, kind, totals)?;
    add_losses(out, pending, tells_held, totals)?;
    add_waits(out, pending, totals)?;
    add_tail(out, pending, tail)?;
    add_tallies(out, pending, totals)?;
    add_utilisation(out, pending, totals.busy, servers_of(kind), span)
}

/// Adds the line of an exit.
#[tactic(auto, unfolding(crate::specs::Text::exit_line))]
pub fn add_exit<O: Sink>(
    out: &mut O,
    pending: &mut Gather,
    name: &[u8],
    output: u8,
    exit: &Exit,
) -> Result<(), SinkFault>
    ensures { Adds O.taken O.sure O.faults out.old out.new pending.old pending.new result (exit_line name.now output (exit.now.count, exit.now.sojourn)) }
{
    add_pieces(
        out,
        pending,
        &[
            Piece::Text(b"exit "),
            Piece::Text(name),
            Piece::Text(b"."),
            Piece::Number(output as u128),
            Piece::Text(b" "),
            Piece::Number(exit.count as u128),
            Piece::Text(b" sojourn "),
            Piece::Number(exit.sojourn),
            Piece::Text(b"\n"),
        ],
    )
}
