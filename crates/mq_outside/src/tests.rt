// A reader is read to its end, in as many reads as that takes.
ghost use Rattle.std.specs.Prelude.{Some};

use crate::FileFault;
use crate::host::read_to;
use mq_base::OutOfMemory;
use std::alloc::Global;
use std::io;
use std::test::Fail;

// Gives at most three bytes at a time, and then fails or is at its end.
#[derive(Drop)]
struct Drip<'a> {
    rest: &'a [u8],
    fails: bool,
}

impl<'a> io::Read for Drip<'a> {
    ghost remaining = { λ d. Some d.rest.now };

    fn read(&mut self, buf: &mut [u8]) -> io::Result<usize> {
        if self.rest.is_empty() && self.fails {
            return Err(io::ErrorKind::BrokenPipe.into());
        }
        let count = buf.len().min(3);
        self.rest.read(&mut buf[..count])
    }
}

// Whether reading "model 1\n" gives this result and, if it is Ok, appends all bytes to those that
// were there.
fn drips(
    alloc: Global,
    limit: u64,
    fails: bool,
    wanted: Result<(), FileFault>,
) -> Result<bool, OutOfMemory> {
    let mut bytes = Vec::from_slice(alloc, b"> ")?;
    let mut drip = Drip {
        rest: b"model 1\n",
        fails,
    };
    Ok(
        read_to(&mut drip, limit, &mut bytes) == wanted
            && (wanted.is_err() || bytes.as_slice() == b"> model 1\n".as_slice()),
    )
}

fn nothing_drips(alloc: Global) -> bool {
    let mut bytes = Vec::new(alloc);
    let mut none = Drip {
        rest: b"",
        fails: false,
    };
    read_to(&mut none, 0, &mut bytes) == Ok(()) && bytes.is_empty()
}

#[test]
fn short_reads_are_put_together(rt: HostRuntime) -> Result<(), Fail> {
    assert!(rt; drips(rt.alloc(), 8, false, Ok(()))?);
    assert!(rt; drips(rt.alloc(), u64::MAX, false, Ok(()))?);
    assert!(rt; drips(rt.alloc(), 7, false, Err(FileFault::TooLong))?);
    assert!(rt; drips(rt.alloc(), 0, true, Err(FileFault::TooLong))?);
    assert!(rt; drips(rt.alloc(), 8, true, Err(FileFault::Failed))?);
    assert!(rt; nothing_drips(rt.alloc()));
    Ok(())
}
