//! What a metered reader or writer notes of its calls.
use isort_sort::{Last, Metered};
use std::alloc::Global;
use std::io::{ErrorKind, Read, Write};
use std::test::Fail;
use test_harness::cases::{all_are_so, was_refused};
use test_harness::devices::{Device, Trouble};

/// Whether a read is offered the whole buffer.
fn reads_four(alloc: Global) -> bool {
    let mut reader = Device::new(alloc, b"abcdef", 1000, Trouble::None);
    matches!(reader.read(&mut [0u8; 4]), Ok(4))
}

/// Whether a write is offered all bytes.
fn writes_six(alloc: Global) -> bool {
    let mut writer = Device::new(alloc, b"", 1000, Trouble::None);
    matches!(writer.write(b"abcdef"), Ok(6))
}

/// Whether each flush reaches the writer, whose first call fails.
fn flushes_twice(alloc: Global) -> bool {
    let mut writer = Device::new(alloc, b"", 1000, Trouble::First(ErrorKind::Other));
    let first = writer.flush().is_err() && writer.last() == Last::Failed;
    let second = writer.flush().is_ok() && writer.last() == Last::Fine;
    first && second && writer.into_inner().calls == 2
}

/// Whether two interrupted reads are counted.
fn counts_two(alloc: Global) -> bool {
    let trouble = Trouble::After(0, ErrorKind::Interrupted);
    let mut reader = Device::new(alloc, b"", 1000, trouble);
    let _ = reader.read(&mut [0u8; 4]);
    let _ = reader.read(&mut [0u8; 4]);
    reader.last() == Last::Interrupted(2)
}

/// Whether a write that takes no byte is noted, but not one of no bytes.
fn notes_one() -> bool {
    let mut none = [0u8; 0];
    let mut full = Metered::new(&mut none[..]);
    let some = matches!(full.write(b"a"), Ok(0)) && full.last() == Last::Empty;
    some && matches!(full.write(b""), Ok(0)) && full.last() == Last::Fine
}

#[test]
fn notes_calls(rt: HostRuntime) -> Result<(), Fail> {
    let alloc = rt.alloc();
    all_are_so(&[
        reads_four(alloc),
        writes_six(alloc) || was_refused(alloc) && writes_six(alloc),
        flushes_twice(alloc),
        counts_two(alloc),
        notes_one(),
    ])
}
