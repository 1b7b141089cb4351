// Texts of traces and of edits that look random.
ghost use Rattle.std.specs.Prelude.{◌<◌};

use mq_base::OutOfMemory;
use mq_core::{Kind, Plan};

/// Returns a number below `most` that looks random, computed from the state, and leaves the next state.
pub fn below(state: &mut u64, most: u64) -> u64
    requires { 0 < most }
    ensures { result < most }
{
    *state = (*state)
        .wrapping_mul(6364136223846793005)
        .wrapping_add(1442695040888963407);
    (*state >> 33) % most
}

// A number below 10,000 in four digits, after a separator.
fn field(mark: u8, number: u64) -> [u8; 5] {
    [
        mark,
        b'0' + (number / 1000 % 10) as u8,
        b'0' + (number / 100 % 10) as u8,
        b'0' + (number / 10 % 10) as u8,
        b'0' + (number % 10) as u8,
    ]
}

// The name of a source: of the first, or of the second if there is one.
fn source<'a>(plan: &'a Plan, second: bool) -> &'a [u8] {
    let mut found: &[u8] = &[];
    for at in 0..plan.net.nodes.len() {
        let node = plan.net.nodes.get(at);
        if let Kind::Source = &node.kind {
            if !found.is_empty() && !second {
                return found;
            }
            found = node.name.as_slice();
        }
    }
    found
}

// Appends the name of a source, a time and a value below 10 for each column of the model, with a separator before each
// but the first.
fn push_row(
    text: &mut Vec<u8>,
    plan: &Plan,
    second: bool,
    mark: u8,
    time: u64,
    state: &mut u64,
) -> Result<(), OutOfMemory> {
    text.extend_from_slice(source(plan, second))?;
    text.extend_from_slice(&field(mark, time))?;
    for _ in 0..plan.net.columns.len() {
        text.extend_from_slice(&field(mark, below(state, 10)))?;
    }
    Ok(())
}

/// Appends a trace of 60 to 259 records for the network of a plan.
pub fn push_trace(text: &mut Vec<u8>, plan: &Plan, state: &mut u64) -> Result<(), OutOfMemory> {
    let count = 60 + below(state, 200);
    text.extend_from_slice(b"source,time")?;
    for column in 0..plan.net.columns.len() {
        text.push(b',')?;
        text.extend_from_slice(plan.net.columns.get(column).as_slice())?;
    }
    let mut time = 0u64;
    for _ in 0..count {
        time = time.wrapping_add(below(state, 12));
        let second = below(state, 2) == 0;
        text.push(b'\n')?;
        push_row(text, plan, second, b',', time, state)?;
    }
    Ok(())
}

/// Appends an edit of a trace of `count` records, which sets one of them or adds one.
pub fn push_edit(
    text: &mut Vec<u8>,
    plan: &Plan,
    count: u64,
    state: &mut u64,
) -> Result<(), OutOfMemory> {
    let row = below(state, count.min(1048576) + 20);
    if row < count {
        text.extend_from_slice(b"set")?;
        text.extend_from_slice(&field(b' ', row + 1))?;
    } else {
        text.extend_from_slice(b"add")?;
    }
    text.push(b' ')?;
    let second = below(state, 2) == 0;
    let time = below(state, 2000);
    push_row(text, plan, second, b' ', time, state)
}
