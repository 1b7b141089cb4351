// Lists, counted steps, and the numbers, lines and words of a text.
ghost use Rattle.std.specs.Prelude.{◌≡◌, ◌<◌};

use mq_base::{List, OutOfMemory, Steps, next_line, next_word, read_number};
use std::alloc::Global;
use std::marker::Brand;
use std::sync::ledger::{Blank, Ledger};
use std::test::Fail;

// Returns the numbers below `end`.
fn numbers_below(alloc: Global, end: u32) -> Result<List<u32>, OutOfMemory> {
    let mut list = List::new(alloc);
    for n in 0..end {
        list.push(n)?;
    }
    Ok(list)
}

fn keeps_its_items(alloc: Global) -> Result<bool, OutOfMemory> {
    let list = numbers_below(alloc, 5)?;
    Ok(list.as_slice() == [0, 1, 2, 3, 4].as_slice() && list.len() == 5 && *list.get(3) == 3)
}

// Returns the first two of these numbers.
fn first_two(alloc: Global) -> Result<List<u32>, OutOfMemory> {
    let mut list = numbers_below(alloc, 5)?;
    if list.len() == 5 {
        list.truncate(2);
    }
    Ok(list)
}

fn keeps_the_first(alloc: Global) -> Result<bool, OutOfMemory> {
    let list = first_two(alloc)?;
    Ok(list.as_slice() == [0, 1].as_slice() && !list.is_empty())
}

fn stays_the_same_as_a_vector(alloc: Global) -> Result<bool, OutOfMemory> {
    let again = List::from_vec(first_two(alloc)?.into_vec());
    Ok(again.as_slice() == [0, 1].as_slice())
}

fn is_extended(alloc: Global) -> Result<bool, OutOfMemory> {
    let mut list = first_two(alloc)?;
    list.extend_from_slice(&[7, 8])?;
    Ok(list.as_slice() == [0, 1, 7, 8].as_slice())
}

fn lists_are_kept(alloc: Global) -> Result<bool, OutOfMemory> {
    Ok(
        keeps_its_items(alloc)?
            && keeps_the_first(alloc)?
            && stays_the_same_as_a_vector(alloc)?
            && is_extended(alloc)?,
    )
}

#[test]
fn a_list_keeps_its_items(rt: HostRuntime) -> Result<(), Fail> {
    assert!(rt; lists_are_kept(rt.alloc())?);
    Ok(())
}

#[test]
fn numbers_are_read(rt: HostRuntime) {
    for (text, limit, want) in [
        (b"0".as_slice(), 0, Some(0)),
        (b"007", 7, Some(7)),
        (b"8", 7, None),
        (b"", 7, None),
        (b" 1", 7, None),
        (b"+1", 7, None),
        (b"18446744073709551615", u64::MAX, Some(u64::MAX)),
        (b"18446744073709551616", u64::MAX, None),
        (b"99999999999999999999", u64::MAX, None),
        (b"000000000000000000001", u64::MAX, None),
    ] {
        assert!(rt; read_number(text, limit) == want);
    }
}

// Adds the words between two indices, each followed by a bar.
fn add_words(
    found: &mut Vec<u8>,
    text: &[u8],
    start: usize,
    end: usize,
) -> Result<(), OutOfMemory> {
    let mut at = start;
    while at <= end && end <= text.len() {
        let Some(word) = next_word(text, at, end) else {
            break;
        };
        found.extend_from_slice(&text[word.start..word.end])?;
        found.push(b'|')?;
        at = word.next;
    }
    Ok(())
}

// Returns the words of each line, with a line feed after each line.
fn lines_and_words(alloc: Global, text: &[u8]) -> Result<Vec<u8>, OutOfMemory> {
    let mut found = Vec::new(alloc);
    let mut from = 0;
    while from <= text.len() {
        let Some(line) = next_line(text, from) else {
            break;
        };
        add_words(&mut found, text, line.start, line.end)?;
        found.push(b'\n')?;
        from = line.next;
    }
    Ok(found)
}

fn is_cut(alloc: Global, text: &[u8], wanted: &[u8]) -> Result<bool, OutOfMemory> {
    Ok(lines_and_words(alloc, text)?.as_slice() == wanted)
}

#[test]
fn lines_and_words_are_cut(rt: HostRuntime) -> Result<(), Fail> {
    assert!(rt;
        is_cut(
            rt.alloc(),
            b"model 1\r\n\t \n\tsource  s\r\r\nx\r",
            b"model|1|\n\nsource|s\r|\nx|\n",
        )?
    );
    Ok(())
}

fn tick_twice<L: Ledger>(blank: Blank)
    requires name { blank.name ≡ L.name }
    requires parts { blank.parts ≡ L.parts }
    requires some { 0 < blank.parts }
{
    let mut steps = Steps::<L>::new(blank);
    steps.tick();
    steps.tick();
}

#[test]
fn steps_are_counted() {
    tick_twice::<Brand>(Blank::new(1));
}
