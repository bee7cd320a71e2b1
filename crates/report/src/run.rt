// Answering the record on standard input.
use crate::reply::{LONGEST, reply};
use std::io;
use std::io::Read;

// Reads a record, at most one byte more than is replayed, and prints what is answered to it.
pub fn run(rt: &HostRuntime) -> io::Result<()> {
    let mut input = Vec::new(rt.alloc());
    let _ = rt.stdin().take(LONGEST as u64 + 1).read_to_end(&mut input)?;
    let text = reply(rt.alloc(), input.as_slice())?;
    rt.print(text)
}
