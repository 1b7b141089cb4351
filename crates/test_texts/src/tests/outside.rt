// Files and sinks, in memory and of the system, and bytes gathered on their way to a sink.
ghost use Rattle.std.specs.Prelude.{◌<◌, ◌≤◌, length};

use mq_base::OutOfMemory;
use mq_outside::{
    FileFault, Files, Gather, HostFiles, HostSink, MemFile, MemFiles, MemSink, Piece, Sink,
    SinkFault, add_bytes, add_pieces, flush, put_all, put_number,
};
use std::alloc::Global;
use std::test::Fail;
use std::{fs, io, rt};

fn file(alloc: Global, name: &str, bytes: &[u8]) -> Result<MemFile, OutOfMemory> {
    Ok(MemFile {
        name: String::from_str(alloc, name)?,
        bytes: Vec::from_slice(alloc, bytes)?,
    })
}

fn some_files(alloc: Global) -> Result<Vec<MemFile>, OutOfMemory> {
    let mut files = Vec::new(alloc);
    files.push(file(alloc, "m", b"model 1\n")?)?;
    files.push(file(alloc, "t", b"source,time\n")?)?;
    files.push(file(alloc, "t", b"")?)?;
    Ok(files)
}

fn reads_each(files: &mut MemFiles, bytes: &mut Vec<u8>) -> bool {
    files.read("m", 8, bytes) == Ok(())
        && files.read("t", 11, bytes) == Err(FileFault::TooLong)
        && files.read("x", 8, bytes) == Err(FileFault::Failed)
        && files.read("m", 8, bytes) == Err(FileFault::Failed)
        && files.read("t", 12, bytes) == Ok(())
}

fn memory_gives_its_files(alloc: Global) -> Result<bool, OutOfMemory> {
    let failing = Vec::from_slice(alloc, &[4])?;
    let mut files = MemFiles::new(some_files(alloc)?, failing);
    let mut bytes = Vec::new(alloc);
    Ok(
        reads_each(&mut files, &mut bytes)
            && bytes.as_slice() == b"model 1\nsource,time\n".as_slice(),
    )
}

#[test]
fn files_in_memory_are_read(rt: HostRuntime) -> Result<(), Fail> {
    assert!(rt; memory_gives_its_files(rt.alloc())?);
    Ok(())
}

// Returns a sink with room, whose puts with these numbers fail.
fn sink(alloc: Global, most: usize, failing: &[u64], room: usize) -> Result<MemSink, OutOfMemory>
    requires { 1 ≤ most }
{
    let mut sink = MemSink::new(alloc, most, Vec::from_slice(alloc, failing)?);
    sink.reserve(room)?;
    Ok(sink)
}

fn keeps_a_first_part(sink: &mut MemSink) -> bool {
    put_all(sink, b"mpsim report 1\njobs 3 span 2\n") == Err(SinkFault::Failed)
        && sink.bytes() == b"mpsim report 1\nj".as_slice()
        && sink.faults() == 1
}

fn goes_on_behind_it(sink: &mut MemSink) -> bool {
    put_number(sink, u128::MAX) == Ok(())
        && sink.bytes() == b"mpsim report 1\nj340282366920938463463374607431768211455".as_slice()
}

fn fails_at_its_second_put(alloc: Global) -> Result<bool, OutOfMemory> {
    let mut sink = sink(alloc, 16, &[2], 1024)?;
    Ok(keeps_a_first_part(&mut sink) && goes_on_behind_it(&mut sink))
}

#[test]
fn a_sink_in_memory_fails_where_it_is_told(rt: HostRuntime) -> Result<(), Fail> {
    assert!(rt; fails_at_its_second_put(rt.alloc())?);
    Ok(())
}

fn answers_each_put(sink: &mut MemSink) -> bool {
    sink.put(b"abcd") == Ok(3)
        && sink.put(b"de") == Err(SinkFault::Failed)
        && sink.put(b"de") == Ok(2)
        && sink.put(b"") == Ok(0)
        && sink.put(b"") == Err(SinkFault::Failed)
}

fn counts_each_put(alloc: Global) -> Result<bool, OutOfMemory> {
    let mut sink = sink(alloc, 3, &[2, 5], 8)?;
    Ok(answers_each_put(&mut sink) && sink.bytes() == b"abcde".as_slice() && sink.faults() == 2)
}

#[test]
fn each_put_of_a_sink_in_memory_is_counted(rt: HostRuntime) -> Result<(), Fail> {
    assert!(rt; counts_each_put(rt.alloc())?);
    Ok(())
}

fn keeps_pieces(out: &mut MemSink, pending: &mut Gather) -> bool {
    let line = [Piece::Text(b"jobs "), Piece::Number(10), Piece::Text(b"\n")];
    add_pieces(out, pending, &line) == Ok(())
        && add_bytes(out, pending, b"end\n") == Ok(())
        && out.bytes() == b"".as_slice()
}

fn flushes_pieces(alloc: Global) -> Result<bool, OutOfMemory> {
    let mut out = sink(alloc, 2, &[], 16)?;
    let mut pending = Gather::new();
    Ok(
        keeps_pieces(&mut out, &mut pending)
            && flush(&mut out, &mut pending) == Ok(())
            && out.bytes() == b"jobs 10\nend\n".as_slice(),
    )
}

#[test]
fn pieces_go_out_in_order(rt: HostRuntime) -> Result<(), Fail> {
    assert!(rt; flushes_pieces(rt.alloc())?);
    Ok(())
}

// Pending bytes go out first; the bytes that don't fit wait.
fn lets_the_first_out(out: &mut MemSink, pending: &mut Gather) -> bool {
    add_bytes(out, pending, b"ab") == Ok(())
        && add_bytes(out, pending, [b'c'; 4095].as_slice()) == Ok(())
        && out.bytes() == b"ab".as_slice()
}

// More than 4,096 bytes go out at once, and the fourth put fails.
fn fails_behind_it(out: &mut MemSink, pending: &mut Gather) -> bool {
    add_bytes(out, pending, [b'd'; 4097].as_slice()) == Err(SinkFault::Failed)
        && out.bytes().len() == 2 + 4095 + 4096
        && flush(out, pending) == Ok(())
        && out.bytes().len() == 2 + 4095 + 4096
}

fn makes_room(alloc: Global) -> Result<bool, OutOfMemory> {
    let mut out = sink(alloc, 4096, &[4], 10_000)?;
    let mut pending = Gather::new();
    Ok(lets_the_first_out(&mut out, &mut pending) && fails_behind_it(&mut out, &mut pending))
}

#[test]
fn a_full_gather_goes_out_first(rt: HostRuntime) -> Result<(), Fail> {
    assert!(rt; makes_room(rt.alloc())?);
    Ok(())
}

fn host_reads<R: rt::Files>(files: &mut HostFiles<'_, R>, bytes: &mut Vec<u8>) -> bool {
    files.read("model.txt", 8, bytes) == Ok(())
        && files.read("model.txt", 7, bytes) == Err(FileFault::TooLong)
        && files.read("absent", 8, bytes) == Err(FileFault::Failed)
        && files.read(".", 8, bytes) == Err(FileFault::Failed)
        && bytes.as_slice() == b"model 1\n".as_slice()
}

fn gives_a_short_file<R: rt::Files>(rt: &R, alloc: Global) -> Result<bool, OutOfMemory> {
    let mut bytes = Vec::new(alloc);
    bytes.reserve(64)?;
    Ok(host_reads(&mut HostFiles::new(rt), &mut bytes))
}

fn pattern(alloc: Global, length: u32) -> Result<Vec<u8>, OutOfMemory> {
    let mut bytes = Vec::new(alloc);
    for n in 0u32..length {
        bytes.push((n % 251) as u8)?;
    }
    Ok(bytes)
}

fn write_pattern<R: rt::Files>(rt: &R, alloc: Global, length: u32) -> Result<(), Fail> {
    fs::write(rt, "model.txt", pattern(alloc, length)?.as_slice())?;
    Ok(())
}

// A file longer than the limit adds nothing, and a file as long as the limit is added
// whole.
fn reads_pattern<R: rt::Files>(
    files: &mut HostFiles<'_, R>,
    wanted: &[u8],
    bytes: &mut Vec<u8>,
) -> bool
    requires { 0 < length wanted.now }
{
    let limit = wanted.len() as u64;
    files.read("model.txt", limit - 1, bytes) == Err(FileFault::TooLong)
        && bytes.as_slice() == b"model 1\n".as_slice()
        && files.read("model.txt", limit, bytes) == Ok(())
        && bytes.as_slice().strip_prefix(b"model 1\n") == Some(wanted)
}

fn gives_a_pattern<R: rt::Files>(rt: &R, alloc: Global, length: u32) -> Result<bool, OutOfMemory> {
    let wanted = pattern(alloc, length)?;
    let mut bytes = Vec::from_slice(alloc, b"model 1\n")?;
    Ok(!wanted.is_empty() && reads_pattern(&mut HostFiles::new(rt), &wanted, &mut bytes))
}

#[test]
fn system_files_are_read(rt: HostRuntime) -> Result<(), Fail> {
    fs::write(&rt, "model.txt", "model 1\n")?;
    assert!(rt; gives_a_short_file(&rt, rt.alloc())?);
    // Lengths of one full buffer of the reading loop, of two, and of two and a part of a
    // third.
    for length in [16_384, 32_768, 40_000] {
        write_pattern(&rt, rt.alloc(), length)?;
        assert!(rt; gives_a_pattern(&rt, rt.alloc(), length)?);
    }
    fs::remove_file(&rt, "model.txt")?;
    Ok(())
}

// Takes three bytes at a time, and in the end fails or takes none.
#[derive(Drop)]
struct Narrow {
    left: usize,
    fails: bool,
}

impl io::Write for Narrow {
    fn write(&mut self, buf: &[u8]) -> io::Result<usize> {
        let count = buf.len().min(3).min(self.left);
        if count == 0 && self.fails {
            return Err(io::ErrorKind::BrokenPipe.into());
        }
        self.left -= count;
        Ok(count)
    }

    fn flush(&mut self) -> io::Result<()> {
        Ok(())
    }
}

fn takes_seven(fails: bool) -> bool {
    let mut sink = HostSink::new(Narrow { left: 7, fails });
    put_all(&mut sink, b"1234567") == Ok(()) && put_all(&mut sink, b"8") == Err(SinkFault::Failed)
}

fn takes_none_of_none() -> bool {
    let mut sink = HostSink::new(Narrow {
        left: 0,
        fails: false,
    });
    sink.put(b"") == Ok(0)
}

#[test]
fn a_writer_that_takes_nothing_has_failed(rt: HostRuntime) {
    assert!(rt; takes_seven(false));
    assert!(rt; takes_seven(true));
    assert!(rt; takes_none_of_none());
}
