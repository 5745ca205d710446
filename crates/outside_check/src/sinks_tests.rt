//! Sinks and lines at work, each generic call through its bound at a concrete type.

ghost use Rattle.std.specs.Prelude.{◌<◌, length};

use jk_model::{Rule, ThreadNo};
use jk_outside::{
    LineBuffer, LineRef, MemorySink, Part, PlaceRef, Sink, SinkFailed, StreamSink, print_line,
    print_next, print_none, write_line,
};
use std::alloc::Global;
use std::io;
use std::io::{ErrorKind, Write};
use std::test::Fail;

/// Puts a line in each way, over one buffer.
fn put_all<S: Sink>(sink: &mut S) -> Result<(), SinkFailed> {
    let mut buffer = LineBuffer::new();
    buffer.put_bytes(b"* ", sink)?;
    buffer.put_escaped(&[0x41, 0x5c, 0xe9, 0x7f], sink)?;
    buffer.put_number(-12, sink)?;
    buffer.end_line(sink)
}

fn write<S: Sink>(sink: &mut S, piece: &[u8]) -> Result<(), SinkFailed>
    requires { 0 < length piece.now }
{
    sink.write(piece)
}

#[test]
fn writes_lines(rt: HostRuntime) -> Result<(), Fail> {
    let mut sink = MemorySink::with_room(rt.alloc(), 1000, &[])?;
    put_all(&mut sink)?;
    let parts = [
        Part::Bytes(b"domain a: "),
        Part::Number(i64::MIN),
        Part::Escaped(&[0x20, 0x7e, 0x1f, 0xffff]),
    ];
    write_line(&mut sink, &parts)?;
    let wanted = b"* A\\\\\\u00e9\\u007f-12\ndomain a: -9223372036854775808 ~\\u001f\\uffff\n";
    assert!(rt; sink.bytes() == wanted.as_slice());
    assert_eq!(rt; sink.faults(), 0);
    Ok(())
}

#[test]
fn writes_a_stream(rt: HostRuntime) -> Result<(), Fail> {
    let mut sink = StreamSink::new(Vec::new(rt.alloc()));
    put_all(&mut sink)?;
    assert_eq!(rt; sink.faults(), 0);
    assert!(rt; sink.into_writer().as_slice() == b"* A\\\\\\u00e9\\u007f-12\n".as_slice());
    let mut room = [0; 3];
    let mut small = StreamSink::new(room.as_mut_slice());
    assert!(rt; write(&mut small, b"abcd").is_err());
    assert_eq!(rt; small.faults(), 1);
    Ok(())
}

/// A writer whose first write is interrupted, and whose others take one byte.
#[derive(Drop)]
struct Halting {
    writes: u32,
}

impl Write for Halting {
    fn write(&mut self, bytes: &[u8]) -> io::Result<usize> {
        self.writes = self.writes.saturating_add(1);
        if self.writes == 1 {
            return Err(io::Error::from(ErrorKind::Interrupted));
        }
        Ok(bytes.len().min(1))
    }

    fn flush(&mut self) -> io::Result<()> {
        Ok(())
    }
}

#[test]
fn goes_on_after_an_interruption(rt: HostRuntime) -> Result<(), Fail> {
    let mut sink = StreamSink::new(Halting { writes: 0 });
    write(&mut sink, b"abc")?;
    assert_eq!(rt; sink.faults(), 0);
    assert_eq!(rt; sink.into_writer().writes, 4);
    Ok(())
}

/// A call of a writer.
#[derive(Clone, Copy, PartialEq, Eq)]
enum WriterCall {
    Write,
    Flush,
}

/// A writer that counts its calls, of which those of one kind fail.
#[derive(Drop)]
struct Counting {
    writes: u32,
    flushes: u32,
    fails: Option<WriterCall>,
}

impl Counting {
    fn new(fails: Option<WriterCall>) -> Counting {
        Counting {
            writes: 0,
            flushes: 0,
            fails,
        }
    }
}

impl Write for Counting {
    fn write(&mut self, bytes: &[u8]) -> io::Result<usize> {
        self.writes = self.writes.saturating_add(1);
        if self.fails == Some(WriterCall::Write) {
            return Err(io::Error::from(ErrorKind::BrokenPipe));
        }
        Ok(bytes.len())
    }

    fn flush(&mut self) -> io::Result<()> {
        self.flushes = self.flushes.saturating_add(1);
        if self.fails == Some(WriterCall::Flush) {
            return Err(io::Error::from(ErrorKind::BrokenPipe));
        }
        Ok(())
    }
}

#[test]
fn flushes_each_piece(rt: HostRuntime) -> Result<(), Fail> {
    let mut sink = StreamSink::new(Counting::new(None));
    write(&mut sink, b"ab")?;
    write(&mut sink, b"c")?;
    assert_eq!(rt; sink.faults(), 0);
    let writer = sink.into_writer();
    assert_eq!(rt; writer.writes, 2);
    assert_eq!(rt; writer.flushes, 2);
    Ok(())
}

#[test]
fn a_writer_that_fails_is_a_fault(rt: HostRuntime) -> Result<(), Fail> {
    for (fails, flushes) in [(WriterCall::Write, 0), (WriterCall::Flush, 1)] {
        let mut sink = StreamSink::new(Counting::new(Some(fails)));
        assert!(rt; write(&mut sink, b"ab").is_err());
        assert_eq!(rt; sink.faults(), 1);
        let writer = sink.into_writer();
        assert_eq!(rt; writer.writes, 1);
        assert_eq!(rt; writer.flushes, flushes);
    }
    Ok(())
}

const STORE: &[u8] = b"store";

const SEVEN: ThreadNo = ThreadNo(7);

const PLACE: PlaceRef<'static> = PlaceRef::At {
    path: "a/\u{e9}\u{10000}.class",
    number: 40,
};

/// A line of each kind, with what is printed of it.
const LINES: &[(LineRef<'static>, &[u8])] = &[
    (
        LineRef::Said {
            domain: STORE,
            text: &[0x41, 0x5c, 0x0a, 0xe9],
        },
        b"store: A\\\\\\u000a\\u00e9\n",
    ),
    (
        LineRef::Loaded { domain: STORE },
        b"* domain store loaded\n",
    ),
    (
        LineRef::Refused {
            domain: STORE,
            rule: Rule::L1,
            place: PlaceRef::Whole,
        },
        b"* domain store refused L1\n",
    ),
    (
        LineRef::Refused {
            domain: STORE,
            rule: Rule::C27,
            place: PLACE,
        },
        b"* domain store refused C27 a/\\u00e9\\ud800\\udc00.class 40\n",
    ),
    (
        LineRef::Started {
            thread: SEVEN,
            domain: STORE,
        },
        b"* thread 7 started in store\n",
    ),
    (
        LineRef::StartRefused {
            domain: STORE,
            number: 6,
        },
        b"* start store refused S6\n",
    ),
    (LineRef::Ended { thread: SEVEN }, b"* thread 7 ended\n"),
    (
        LineRef::EndedBy {
            thread: SEVEN,
            class: &[0x61, 0x2f, 0x42],
        },
        b"* thread 7 ended by a/B\n",
    ),
    (
        LineRef::EndedByKill { thread: SEVEN },
        b"* thread 7 ended by kill\n",
    ),
    (
        LineRef::Killed { domain: STORE },
        b"* domain store killed\n",
    ),
    (
        LineRef::KillRefused { domain: STORE },
        b"* kill store refused K1\n",
    ),
];

fn is_printed(alloc: Global, line: LineRef<'_>, text: &[u8]) -> Result<bool, Fail> {
    let mut sink = MemorySink::with_room(alloc, 100, &[])?;
    print_line(line, &mut sink)?;
    Ok(sink.bytes() == text)
}

#[test]
fn prints_each_kind_of_line(rt: HostRuntime) -> Result<(), Fail> {
    for (i, (line, text)) in LINES.iter().enumerate() {
        assert!(rt; is_printed(rt.alloc(), *line, text)?, "line {i}");
    }
    Ok(())
}

/// Prints three lines one after another, and says whether all went well.
fn print_three(sink: &mut MemorySink) -> bool {
    let killed = print_next(print_none(sink), LineRef::Killed { domain: b"a" }, sink);
    let thread = ThreadNo(1);
    let first = print_next(killed, LineRef::EndedByKill { thread }, sink);
    let thread = ThreadNo(2);
    print_next(first, LineRef::EndedByKill { thread }, sink).is_ok()
}

#[test]
fn prints_no_more_after_a_failure(rt: HostRuntime) -> Result<(), Fail> {
    let mut sink = MemorySink::with_room(rt.alloc(), 1000, &[])?;
    assert!(rt; print_three(&mut sink));
    let all = b"* domain a killed\n* thread 1 ended by kill\n* thread 2 ended by kill\n";
    assert!(rt; sink.bytes() == all.as_slice());
    // The second line fails, and there is room for the third.
    let mut sink = MemorySink::with_room(rt.alloc(), 1000, &[2])?;
    assert!(rt; !print_three(&mut sink));
    assert!(rt; sink.bytes().starts_with(b"* domain a killed\n"));
    assert!(rt; !sink.bytes().ends_with(b"2 ended by kill\n"));
    Ok(())
}
