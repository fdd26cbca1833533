//! Which files the entries of a journal want.
use super::files::disk_of;
use change_journal::Journal;
use change_log::Log;
use host_opening::wanted;
use std::alloc::{AllocError, Global};
use std::test::Fail;

/// A deploy of `/a.txt` and `/b.txt` is published, which are `hello` and `abc`; then a file is renamed, one removed, and the renaming undone. Of
/// another deploy, which isn't published, `/c` is the empty file.
const FILE: &str = "\
0146484a524e4c01 01 00000044 01036f6e650200000002 0006 2f612e747874 01 aaf4c61ddcc5e8a2dabede0f3b482cd9aea9434d \
0006 2f622e747874 01 a9993e364706816aba3e25717850c26c9cd0d89d 01 0000000d 02036f6e650000000000000001 \
01 00000015 06036f6e6500062f612e74787400062f632e747874 01 0000000d 07036f6e6500062f622e747874 \
01 0000000d 00036f6e650000000000000003 \
01 00000023 010374776f0200000001 0002 2f63 01 da39a3ee5e6b4b0d3255bfef95601890afd80709 00";

const WANTED: &str = "\
a9993e364706816aba3e25717850c26c9cd0d89d true
aaf4c61ddcc5e8a2dabede0f3b482cd9aea9434d true
da39a3ee5e6b4b0d3255bfef95601890afd80709 false
";

/// Each digest that is wanted, and whether its file must be there.
fn told(alloc: Global, log: &Log) -> Result<String, AllocError> {
    let mut text = String::new(alloc);
    for file in wanted(alloc, log)?.as_slice() {
        writeln!(text, "{} {}", file.digest.to_hex().as_str(), file.must)?;
    }
    Ok(text)
}

/// What the entries want that are opened of a file in the first slot.
fn told_of(alloc: Global, file: &str) -> Result<String, Fail> {
    match Journal::open(alloc, disk_of(alloc, file)?, disk_of(alloc, "")?) {
        Ok((_, log)) => Ok(told(alloc, &log)?),
        Err(stop) => Err(Fail::from(stop.fault)),
    }
}

#[test]
fn files_of_published_deploys_must_be_there(rt: HostRuntime) -> Result<(), Fail> {
    let text = told_of(rt.alloc(), FILE)?;
    assert_eq!(rt; text.as_str(), WANTED);
    Ok(())
}
