use qs_io::{
    MemSink, MemSource, ReadEnd, StdSink, StdSource, SureSource, TracedSink, read_all, write_all,
};
use std::io;
use std::io::{Read, Write};

const TEXT: &[u8] = b"-1- JEAN + VOIT + MARIE -2-.";

#[test]
fn a_text_is_read_whole_in_pieces_of_any_length(rt: HostRuntime) {
    let alloc = rt.alloc();
    for piece in [1, 5, 100] {
        let bytes = TEXT.to_vec(alloc).expect(&rt, "the text");
        let text = read_all(alloc, &mut SureSource::new(alloc, bytes, piece)).expect(&rt, "sure");
        assert!(rt; text.as_slice() == TEXT, "in pieces of {piece}");
        let bytes = TEXT.to_vec(alloc).expect(&rt, "the text");
        let mut source = MemSource::new(alloc, bytes, piece, Vec::new(alloc));
        let text = read_all(alloc, &mut source).expect(&rt, "not failing");
        assert!(rt;
            text.as_slice() == TEXT && source.left().is_empty(),
            "in pieces of {piece}"
        );
    }
}

#[test]
fn the_third_read_of_8_bytes_fails(rt: HostRuntime) {
    let alloc = rt.alloc();
    let bytes = TEXT.to_vec(alloc).expect(&rt, "the text");
    let failing = vec![in alloc; 3].expect(&rt, "the read");
    let mut source = MemSource::new(alloc, bytes, 8, failing);
    assert!(rt; read_all(alloc, &mut source).err() == Some(ReadEnd::Fault));
    assert!(rt; source.left() == b"+ MARIE -2-.".as_slice() && source.faults() == 1);
    let rest = read_all(alloc, &mut source).expect(&rt, "the rest");
    assert!(rt; rest.as_slice() == b"+ MARIE -2-.".as_slice() && source.faults() == 1);
}

#[test]
fn a_text_may_have_4194304_bytes_and_no_more(rt: HostRuntime) {
    let alloc = rt.alloc();
    for (length, end, left) in [
        (4_194_304, None, 0),
        (4_194_305, Some(ReadEnd::TooLong), 0),
        (4_200_000, Some(ReadEnd::TooLong), 5695),
    ] {
        let bytes = vec![in alloc; b' '; length].expect(&rt, "the text");
        let mut source = MemSource::new(alloc, bytes, 5000, Vec::new(alloc));
        assert!(rt;
            read_all(alloc, &mut source).err() == end,
            "at {length} bytes"
        );
        assert!(rt;
            source.left().len() == left && source.faults() == 0,
            "at {length} bytes"
        );
    }
}

#[test]
fn a_text_is_written_in_pieces_up_to_the_call_that_fails(rt: HostRuntime) {
    let alloc = rt.alloc();
    let failing = vec![in alloc; 5].expect(&rt, "the write");
    let mut sink = MemSink::new(alloc, 100, 10, failing).expect(&rt, "a sink");
    assert!(rt; write_all(&mut sink, TEXT).is_ok());
    assert!(rt; sink.written() == TEXT);
    assert!(rt; write_all(&mut sink, b"GRAPHES SUIVANTS").is_err());
    assert!(rt; sink.written() == b"-1- JEAN + VOIT + MARIE -2-.GRAPHES SU".as_slice());
    assert!(rt; sink.faults() == 1);
}

#[test]
fn a_full_sink_fails_at_every_further_write(rt: HostRuntime) {
    let alloc = rt.alloc();
    let mut sink = MemSink::new(alloc, 7, 5, Vec::new(alloc)).expect(&rt, "a sink");
    for faults in [1, 2] {
        assert!(rt; write_all(&mut sink, TEXT).is_err());
        assert!(rt; sink.written() == b"-1- JEA".as_slice() && sink.faults() == faults);
    }
}

#[test]
fn a_whole_text_takes_one_write_and_an_empty_one_none(rt: HostRuntime) {
    let alloc = rt.alloc();
    let failing = vec![in alloc; 2].expect(&rt, "the second write");
    let mut sink = MemSink::new(alloc, 100, 100, failing).expect(&rt, "a sink");
    assert!(rt; write_all(&mut sink, b"").is_ok());
    assert!(rt; write_all(&mut sink, TEXT).is_ok());
    assert!(rt; write_all(&mut sink, b"").is_ok());
    assert!(rt; write_all(&mut sink, TEXT).is_err());
    assert!(rt; sink.written() == TEXT);
}

#[test]
fn a_slice_is_read_and_a_vector_written(rt: HostRuntime) {
    let alloc = rt.alloc();
    let text = read_all(alloc, &mut StdSource::new(TEXT)).expect(&rt, "the text");
    assert!(rt; text.as_slice() == TEXT);
    let mut bytes = Vec::new(alloc);
    assert!(rt; write_all(&mut StdSink::new(&mut bytes), TEXT).is_ok());
    assert!(rt; bytes.as_slice() == TEXT);
}

#[test]
fn a_traced_sink_writes_what_the_sink_below_it_takes(rt: HostRuntime) {
    let mut bytes = Vec::new(rt.alloc());
    assert!(rt; write_all(&mut TracedSink::new(StdSink::new(&mut bytes)), TEXT).is_ok());
    assert!(rt; bytes.as_slice() == TEXT);
    let mut sink = TracedSink::new(StdSink::new(failing_at(1, 1)));
    assert!(rt; write_all(&mut sink, TEXT).is_err());
}

#[test]
fn an_error_or_a_write_of_nothing_is_a_fault(rt: HostRuntime) {
    let mut source = StdSource::new(failing_at(1, 1));
    assert!(rt; read_all(rt.alloc(), &mut source).err() == Some(ReadEnd::Fault));
    assert!(rt; write_all(&mut StdSink::new(failing_at(1, 1)), TEXT).is_err());
    let mut full = [0; 7];
    assert!(rt; write_all(&mut StdSink::new(full.as_mut_slice()), TEXT).is_err());
    assert!(rt; full.as_slice() == b"-1- JEA".as_slice());
}

#[test]
fn a_reader_that_failed_is_asked_again_by_the_next_call_alone(rt: HostRuntime) {
    let mut source = StdSource::new(failing_at(2, 2));
    assert!(rt; read_all(rt.alloc(), &mut source).err() == Some(ReadEnd::Fault));
    let rest = read_all(rt.alloc(), &mut source).expect(&rt, "the rest");
    assert!(rt; rest.as_slice() == b"B".as_slice());
}

#[test]
fn a_block_is_one_call_of_the_writer(rt: HostRuntime) {
    let mut counter = failing_at(0, 0);
    for calls in [1, 2] {
        assert!(rt; write_all(&mut StdSink::new(&mut counter), TEXT).is_ok());
        assert!(rt; counter.writes == calls && counter.flushes == calls);
    }
}

/// A reader and writer. It gives the bytes A and B one by one and takes all bytes, but its reads and flushes with the
/// numbers `failing` to `last_failing`, from 1 on, fail.
#[derive(Drop)]
struct Device {
    failing: u32,
    last_failing: u32,
    reads: u32,
    given: u32,
    writes: u32,
    flushes: u32,
}

/// The device that fails at these calls.
const fn failing_at(failing: u32, last_failing: u32) -> Device {
    Device {
        failing,
        last_failing,
        reads: 0,
        given: 0,
        writes: 0,
        flushes: 0,
    }
}

impl Device {
    fn fails(&self, call: u32) -> bool {
        self.failing <= call && call <= self.last_failing
    }
}

impl Read for Device {
    fn read(&mut self, room: &mut [u8]) -> io::Result<usize> {
        self.reads = self.reads.saturating_add(1);
        if self.fails(self.reads) {
            return Err(io::Error::other("broken"));
        }
        self.given = self.given.saturating_add(1);
        let byte = match self.given {
            1 => b'A',
            2 => b'B',
            _ => return Ok(0),
        };
        let Some(first) = room.first_mut() else {
            return Ok(0);
        };
        *first = byte;
        Ok(1)
    }
}

impl Write for Device {
    fn write(&mut self, bytes: &[u8]) -> io::Result<usize> {
        self.writes = self.writes.saturating_add(1);
        Ok(bytes.len())
    }

    fn flush(&mut self) -> io::Result<()> {
        self.flushes = self.flushes.saturating_add(1);
        if self.fails(self.flushes) {
            return Err(io::Error::other("broken"));
        }
        Ok(())
    }
}
