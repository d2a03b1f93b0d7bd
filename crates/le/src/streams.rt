ghost use Rattle.le_base.specs.Outside.{Reads, Writes, Rose};
ghost use Rattle.le.specs.Streams.{GivesRead, TakesWrite, got_of, took_of, faults_after_read, faults_after_write};
ghost use Rattle.std.specs.Prelude.{◌≡◌, ◌≢◌, ℕ, List, Option, None, ◌<◌, ◌≤◌, length};

use le_base::{Got, Sink, Source, Took};
use std::io;
use std::io::{Read, Write};

/// A source over a stream, which doesn't tell its bytes. A read fails where the stream answers an error.
#[derive(Drop)]
pub struct StreamSource<R: Read> {
    reader: R,
    faults: u64,
}

impl<R: Read> StreamSource<R> {
    /// A source of what the stream gives, without faults so far.
    pub fn new(reader: R) -> Self
        ensures reader { result.reader ≡ reader }
        ensures faults { result.faults ≡ 0 }
    {
        StreamSource { reader, faults: 0 }
    }
}

/// What a stream's answer to a read means.
fn got_of(answer: io::Result<usize>) -> Got
    ensures { result ≡ got_of answer }
{
    match answer {
        Ok(0) => Got::End,
        Ok(count) => Got::Bytes(count),
        Err(_) => Got::Failed,
    }
}

impl<R: Read> Source for StreamSource<R> {
    ghost faults = { λ s. s.faults };

    ghost left = { λ _. None };

    /// Hands on what the stream gives. Where the stream tells its bytes, they are those of a read: so the
    /// end is answered only where nothing is left. A failure is one fault more, and no other answer is.
    fn read(&mut self, buffer: &mut [u8]) -> Got
        requires { 0 < length buffer.old }
        ensures content { Reads None None result buffer.new }
        ensures failed { result ≡ Got.Failed → Rose self.old.faults self.new.faults }
        ensures kept { result ≢ Got.Failed → self.new.faults ≡ self.old.faults }
        ensures count { self.old.faults ≤ self.new.faults }
        ensures exact { self.new.faults ≡ faults_after_read self.old.faults result }
        ensures given { GivesRead (R.remaining self.old.reader) (R.remaining self.new.reader) result buffer.new }
    {
        let got = got_of(self.reader.read(buffer));
        if let Got::Failed = got {
            self.faults = self.faults.saturating_add(1);
        }
        got
    }
}

/// A sink over a stream, which doesn't tell what was written. A write fails where the stream answers an
/// error, also as it is flushed, or takes no byte.
#[derive(Drop)]
pub struct StreamSink<W: Write> {
    writer: W,
    faults: u64,
}

impl<W: Write> StreamSink<W> {
    /// A sink that writes to the stream, without faults so far.
    pub fn new(writer: W) -> Self
        ensures writer { result.writer ≡ writer }
        ensures faults { result.faults ≡ 0 }
    {
        StreamSink { writer, faults: 0 }
    }
}

/// What a stream's answers to a write and to the flush after it mean.
fn took_of(answer: io::Result<usize>, flushed: io::Result<()>) -> Took
    ensures { result ≡ took_of answer flushed }
{
    match (answer, flushed) {
        (Ok(count), Ok(())) if count != 0 => Took::Bytes(count),
        _ => Took::Failed,
    }
}

impl<W: Write> Sink for StreamSink<W> {
    ghost faults = { λ s. s.faults };

    ghost written = { λ _. None };

    /// Hands on what the stream takes, and flushes it. Where the stream tells what was written, it has
    /// grown by the bytes that were taken. A failure is one fault more, and no other answer is.
    fn write(&mut self, bytes: &[u8]) -> Took
        requires { 0 < length bytes.now }
        ensures content { Writes None None result bytes.now }
        ensures failed { result ≡ Took.Failed → Rose self.old.faults self.new.faults }
        ensures kept { result ≢ Took.Failed → self.new.faults ≡ self.old.faults }
        ensures count { self.old.faults ≤ self.new.faults }
        ensures exact { self.new.faults ≡ faults_after_write self.old.faults result }
        ensures taken { TakesWrite (W.contents self.old.writer) (W.contents self.new.writer) result bytes.now }
    {
        let answer = self.writer.write(bytes);
        let took = took_of(answer, self.writer.flush());
        if let Took::Failed = took {
            self.faults = self.faults.saturating_add(1);
        }
        took
    }
}

#[cfg(test)]
mod tests {
    use super::*;
    use le_base::read_all;
    use std::test::Fail;

    /// A stream that answers an error at each second call.
    #[derive(Drop)]
    struct Faulty {
        calls: u8,
    }

    impl Read for Faulty {
        fn read(&mut self, buffer: &mut [u8]) -> io::Result<usize> {
            self.calls = self.calls.saturating_add(1);
            if self.calls % 2 == 0 {
                return Err(io::Error::from(io::ErrorKind::BrokenPipe));
            }
            if buffer.is_empty() {
                return Ok(0);
            }
            buffer[0] = b'x';
            Ok(1)
        }
    }

    impl Write for Faulty {
        fn write(&mut self, bytes: &[u8]) -> io::Result<usize> {
            self.calls = self.calls.saturating_add(1);
            if self.calls % 2 == 0 {
                return Err(io::Error::from(io::ErrorKind::BrokenPipe));
            }
            Ok(bytes.len().min(1))
        }

        fn flush(&mut self) -> io::Result<()> {
            Ok(())
        }
    }

    /// A stream that takes so many bytes a call, and whose flush fails from the second one on.
    #[derive(Drop)]
    struct Full {
        piece: usize,
        flushes: u8,
    }

    impl Write for Full {
        fn write(&mut self, bytes: &[u8]) -> io::Result<usize> {
            Ok(bytes.len().min(self.piece))
        }

        fn flush(&mut self) -> io::Result<()> {
            self.flushes = self.flushes.saturating_add(1);
            if self.flushes < 2 {
                return Ok(());
            }
            Err(io::Error::from(io::ErrorKind::StorageFull))
        }
    }

    #[test]
    fn a_source_counts_failed_reads(rt: HostRuntime) -> Result<(), Fail> {
        let mut source = StreamSource::new(Faulty { calls: 0 });
        let mut buffer = [0; 4];
        assert_eq!(rt; source.read(&mut buffer), Got::Bytes(1));
        assert_eq!(rt; buffer[0], b'x');
        assert_eq!(rt; source.read(&mut buffer), Got::Failed);
        assert_eq!(rt; source.faults, 1);
        let mut empty = StreamSource::new(io::empty());
        assert_eq!(rt; empty.read(&mut buffer), Got::End);
        assert_eq!(rt; empty.faults, 0);
        // A document of 64 KiB fills the buffer of a read eight times.
        let mut long = StreamSource::new(io::repeat(b'%').take(65_536));
        let read = match read_all(rt.alloc(), &mut long, 100_000) {
            Ok(bytes) => bytes.len(),
            Err(_) => 0,
        };
        assert_eq!(rt; (read, long.faults), (65_536, 0));
        Ok(())
    }

    #[test]
    fn a_sink_counts_failed_writes(rt: HostRuntime) -> Result<(), Fail> {
        let mut sink = StreamSink::new(Faulty { calls: 0 });
        assert_eq!(rt; sink.write(b"ab"), Took::Bytes(1));
        assert_eq!(rt; sink.write(b"b"), Took::Failed);
        assert_eq!(rt; sink.faults, 1);
        let mut full = StreamSink::new(Full {
            piece: 9,
            flushes: 0,
        });
        assert_eq!(rt; full.write(b"ab"), Took::Bytes(2));
        assert_eq!(rt; full.write(b"ab"), Took::Failed);
        assert_eq!(rt; full.faults, 1);
        let mut none = StreamSink::new(Full {
            piece: 0,
            flushes: 0,
        });
        assert_eq!(rt; none.write(b"ab"), Took::Failed);
        assert_eq!(rt; none.faults, 1);
        Ok(())
    }
}
