// What the programs share of arguments and reading: a file that an argument names is opened, and read into a buffer up to its end. A read that fails is
// not taken for the end. What fails is said on standard error.
#![tactic(auto)]

ghost use Rattle.std.specs.Prelude.{◌^◌, ◌≤◌, IfOk, IsErr};
ghost use Rattle.std.specs.Io.{WritesAtMost};
ghost use Rattle.files.specs.Opened.{is_open, opened};

use std::env::{Env, FillError};
use std::fs::File;
use std::io;
use std::io::{Error, ErrorKind, Read, Seek, SeekFrom};
use std::os::fd::AsRawFd;

// The system's numbers of an argument that is missing, of one that is too long, of a name that is no text, and of a descriptor that is none.
const INVALID: i32 = 22;

const TOO_LONG: i32 = 36;

const NO_TEXT: i32 = 84;

const BAD_DESCRIPTOR: i32 = 9;

// A proved loop has to end: these are more turns than any file takes.
const TURNS: usize = 1_000_000_000_000;

// Fills a buffer from a file, up to the file's end, and counts the bytes. Of a file std knows no bytes that are still to come, so no promise says what it holds.
pub fn fill<R: Read>(file: &mut R, buf: &mut [u8]) -> io::Result<usize>
    ensures { WritesAtMost result buf.new }
{
    let mut at = 0;
    while at < buf.len() {
        let n = file.read(&mut buf[at..])?;
        if n == 0 {
            return Ok(at);
        }
        at += n;
    }
    Ok(at)
}

// Fills a buffer from a place of a file on. What can't be sought, as a place behind those that the system numbers, is a read that fails.
pub fn fill_from<R: Read + Seek>(file: &mut R, place: u64, buf: &mut [u8]) -> io::Result<usize>
    ensures inside { WritesAtMost result buf.new }
    ensures sought { 2 ^ 63 ≤ place → IsErr result }
{
    if 9223372036854775807 < place {
        return Err(Error::from(ErrorKind::InvalidInput));
    }
    file.seek(SeekFrom::Start(place))?;
    fill(file, buf)
}

// How many bytes one read takes.
fn skip_some<R: Read>(file: &mut R) -> io::Result<usize>
    ensures { IfOk result (λ n. n ≤ 4096) }
{
    let mut buf = [0u8; 4096];
    file.read(&mut buf)
}

// How many bytes a file still has.
pub fn rest_of<R: Read>(file: &mut R) -> io::Result<usize>
    ensures { IfOk result (λ n. n ≤ 4096000000000000) }
{
    let mut total = 0;
    for _ in 0..TURNS {
        let n = skip_some(file)?;
        if n == 0 {
            break;
        }
        total += n;
    }
    Ok(total)
}

// The text of an error without the system's number for it.
fn without_number(text: &str) -> &str {
    match text.split_once(" (os error ") {
        Some((plain, _)) => plain,
        None => text,
    }
}

// Says on standard error what failed, as the caller names it, and why.
pub fn fail(rt: &HostRuntime, what: &[u8], error: Error) {
    let stderr = rt.stderr();
    let _ = stderr.write_all(what);
    let _ = match format!(in rt.alloc(); "{error}") {
        Ok(text) => {
            let why = without_number(text.as_str());
            eprintln!(rt; ": {why}")
        }
        Err(_) => eprintln!(rt; ": {error}"),
    };
}

// How many words the program was started with, its own name among them. More than `most` are counted as `most`.
pub fn arg_count(rt: &HostRuntime, most: usize) -> usize
    ensures { result ≤ most }
{
    for i in 0..most {
        if !is_given(rt, i) {
            return i;
        }
    }
    most
}

// Whether there is an argument i. It need not fit the buffer.
fn is_given(rt: &HostRuntime, i: usize) -> bool {
    let mut buf = [0u8; 1];
    !matches!(rt.arg(i, &mut buf), Err(FillError::NotPresent))
}

// Opens the file of this name.
fn open_named(rt: &HostRuntime, name: &[u8]) -> io::Result<File>
    ensures { IfOk result is_open }
{
    let Ok(path) = std::str::from_utf8(name) else {
        return Err(Error::from_raw_os_error(NO_TEXT));
    };
    let file = File::open(rt, path)?;
    // An open file's descriptor is not negative, which no clause of std says.
    if file.as_raw_fd() < 0 {
        return Err(Error::from_raw_os_error(BAD_DESCRIPTOR));
    }
    Ok(file)
}

// The same, or says why it can't be opened.
fn open(rt: &HostRuntime, name: &[u8]) -> Option<File>
    ensures { opened result }
{
    match open_named(rt, name) {
        Ok(file) => Some(file),
        Err(e) => {
            fail(rt, name, e);
            None
        }
    }
}

// Opens the file that argument i names, or says why it can't be.
pub fn open_arg(rt: &HostRuntime, i: usize) -> Option<File>
    ensures { opened result }
{
    let mut path = [0u8; 4096];
    match rt.arg(i, &mut path) {
        Ok(n) => open(rt, &path[..n]),
        Err(why) => {
            let number = match why {
                FillError::NotPresent => INVALID,
                FillError::TooLong => TOO_LONG,
            };
            fail(rt, b"file name", Error::from_raw_os_error(number));
            None
        }
    }
}
