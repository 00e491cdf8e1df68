// Standard input, read into lent bytes to its end or as far as there is room, and the line about a read or a write that failed: what programs share, over a schedule or
// over another input.
#![tactic(auto)]

ghost use Rattle.std.specs.Prelude.{◌≡◌, ◌^◌, ◌<◌, ◌≤◌, IfOk, IfErr, length, take};
ghost use Rattle.std.specs.Io.KnownBytes.{Consumes, IsAtEnd};
ghost use Rattle.io.specs.Counts.{IsPrefixLen};

use arrayvec::ArrayString;
use std::fmt::Write;
use std::io;
use std::io::Read;
use std::process::ExitCode;

// Room for N bytes, all 0.
pub fn room<const N: usize>() -> [u8; N]
    ensures { N ≡ length result }
{
    [0; N]
}

// Room for the longest schedule, 65,536 bytes, and one byte more, so that a file that is too long is seen to be.
pub fn file_room() -> [u8; 65537]
    ensures { 65537 ≡ length result }
{
    room()
}

// A read that failed: its error, and how many bytes were read before.
#[derive(Drop)]
pub struct Failed {
    pub error: io::Error,
    pub count: usize,
}

// Reads to the end of the input, or as much as there is room for, or to a read that fails. The reads go straight into the lent bytes: the library's `read_to_end`
// reads into a heap.
pub fn read_input<R: Read>(reader: &mut R, room: &mut [u8]) -> Result<usize, Failed>
    ensures read { IfOk result (λ count. IsPrefixLen count room.new × Consumes (R.remaining reader.old) (R.remaining reader.new) (take count room.new) × (count < length room.new → IsAtEnd (R.remaining reader.new))) }
    ensures failed { IfErr result (λ failed. IsPrefixLen failed.count room.new × Consumes (R.remaining reader.old) (R.remaining reader.new) (take failed.count room.new)) }
{
    let mut count = 0;
    while count < room.len() {
        match reader.read(&mut room[count..]) {
            Ok(0) => break,
            Ok(more) => count += more,
            Err(error) => return Err(Failed { error, count }),
        }
    }
    Ok(count)
}

// An error as `Display` shows it, without the number that stands there behind the system's words.
fn words_of(shown: &str) -> &str
    ensures { take (length result.now) shown.now ≡ result.now }
{
    match shown.split_once(" (os error ") {
        Some((words, _)) => words,
        None => shown,
    }
}

// Writes a line to standard error: the program's name, what failed, and the system's words for the error. If this cannot be written either, there is nobody left to
// tell. No contract: none can say what a stream is given.
fn complain(rt: &impl Eprint, name: &str, what: &str, error: &io::Error) {
    let mut shown = ArrayString::<256>::new();
    let _ = write!(shown, "{error}");
    let words = words_of(&shown);
    let _ = eprintln!(rt; "{name}: {what}: {words}");
}

// A program over its input: reads standard input, as much of it as `file` has room for, lets `work` put a text of at most `TEXT` bytes into lent bytes, whose number it
// answers, and writes the text to standard output, and nothing else. If the one cannot be read or the other cannot be written, it says so on standard error and ends
// with status 1. It promises nothing of them: no contract can say what a stream is given.
fn run_within<const FILE: usize, const TEXT: usize, F: FnOnce(&[u8], &mut [u8]) -> usize>(
    rt: &HostRuntime,
    name: &str,
    unwritten: &str,
    file: &mut [u8; FILE],
    work: F,
) -> ExitCode
    requires size { TEXT < 2 ^ 63 }
    requires callable { F.IsAlwaysCallable work }
    requires inside { (file : _) (text : _) (count : _) (after : _) → F.post work file text count after → count ≤ length after.now }
{
    let count = match read_input(&mut rt.stdin(), file) {
        Ok(count) => count,
        Err(failed) => {
            complain(rt, name, "standard input could not be read", &failed.error);
            return ExitCode::FAILURE;
        }
    };
    let mut text = room::<TEXT>();
    let length = work(&file[..count], &mut text);
    if let Err(error) = rt.write_all(&text[..length]) {
        complain(rt, name, unwritten, &error);
        return ExitCode::FAILURE;
    }
    ExitCode::SUCCESS
}

// A program over its input, at most `FILE` bytes of it.
pub fn run<const FILE: usize, const TEXT: usize, F: FnOnce(&[u8], &mut [u8]) -> usize>(
    rt: &HostRuntime,
    name: &str,
    unwritten: &str,
    work: F,
) -> ExitCode
    requires sizes { (FILE < 2 ^ 63) × (TEXT < 2 ^ 63) }
    requires callable { F.IsAlwaysCallable work }
    requires inside { (file : _) (text : _) (count : _) (after : _) → F.post work file text count after → count ≤ length after.now }
{
    run_within::<FILE, TEXT, F>(rt, name, unwritten, &mut room::<FILE>(), work)
}

// A program over a schedule: its input is read into `file_room`, whose clause says how long that is. It asks of `work` and of the room for its text what `run`
// asks: callers of both have these clauses.
pub fn run_over_schedule<const TEXT: usize, F: FnOnce(&[u8], &mut [u8]) -> usize>(
    rt: &HostRuntime,
    name: &str,
    unwritten: &str,
    work: F,
) -> ExitCode
    requires size { TEXT < 2 ^ 63 }
    requires callable { F.IsAlwaysCallable work }
    requires inside { (file : _) (text : _) (count : _) (after : _) → F.post work file text count after → count ≤ length after.now }
{
    run_within::<_, TEXT, F>(rt, name, unwritten, &mut file_room(), work)
}

#[cfg(test)]
mod tests {
    use super::*;
    use std::test::Fail;

    // Gives a byte at each read, until it fails.
    #[derive(Drop)]
    struct Failing {
        left: usize,
    }

    impl Read for Failing {
        fn read(&mut self, buf: &mut [u8]) -> io::Result<usize> {
            if self.left == 0 {
                return Err(io::Error::from_raw_os_error(5));
            }
            if buf.is_empty() {
                return Ok(0);
            }
            buf[0] = b'a';
            self.left -= 1;
            Ok(1)
        }
    }

    #[test]
    fn reads_to_the_end(rt: HostRuntime) -> Result<(), Fail> {
        let mut room = [0u8; 8];
        let count = read_input(&mut b"schedule".as_slice(), &mut room).ok();
        assert_eq!(rt; count, Some(8));
        assert_eq!(rt; room.as_slice(), b"schedule".as_slice());
        Ok(())
    }

    #[test]
    fn tells_a_failure_in_mid_stream(rt: HostRuntime) -> Result<(), Fail> {
        let mut room = [0u8; 8];
        let failed = read_input(&mut Failing { left: 3 }, &mut room)
            .err()
            .ok_or("no failure")?;
        assert_eq!(rt; failed.error.raw_os_error(), Some(5));
        assert_eq!(rt; failed.count, 3);
        assert_eq!(rt; room.as_slice(), b"aaa\0\0\0\0\0".as_slice());
        Ok(())
    }

    #[test]
    fn gives_the_words_alone(rt: HostRuntime) {
        assert_eq!(rt; words_of("Is a directory (os error 21)"), "Is a directory");
        assert_eq!(rt;
            words_of("failed to write whole buffer"),
            "failed to write whole buffer"
        );
    }

    // A test has no input: what `work` is handed is what was read, and not all that there is room for.
    #[test]
    fn runs_over_what_was_read(rt: HostRuntime) {
        let mut read = 1;
        let mut room = 0;
        let status = run::<300, 5, _>(&rt, "reading", "the text is not whole", |file, text| {
            read = file.len();
            room = text.len();
            0
        });
        assert_eq!(rt; status, ExitCode::SUCCESS);
        assert_eq!(rt; read, 0);
        assert_eq!(rt; room, 5);
    }
}
