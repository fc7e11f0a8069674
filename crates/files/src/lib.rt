// Files by the program's arguments: a sheet, a plan or a text that is read, and a plan, a book, a text or a sheet that is written whole or not at all;
// what is said about them, and the exit status.
#![tactic(auto)]

ghost use Rattle.std.specs.Prelude.{◌≡◌, ◌≤◌, ◌++◌, min, length, replicate, IfOk, IfSome, MatchOption, Ok};
ghost use Rattle.meaning.specs.Plan.{deciding_plan};
ghost use Rattle.meaning.specs.Lister.{any_text};
ghost use Rattle.lines.specs.Text.{Says};
ghost use Rattle.files.specs.Status.{status_of, status_by, exit_number, OrFailed};
ghost use Rattle.files.specs.Name.{is_dash, plain_byte, flattened};

use lines::Text;
use meaning::Outcome;
use std::env::{Env, FillError};
use std::fs::{File, OpenOptions};
use std::io::{Error, ErrorKind, Print, Read, Stdin, Write};
use std::random::RandomSource;
use std::{fs, io};

// What is answered: what was asked for, a refusal, or what a caller has of its own, by a byte; `say` and `tell` hand on any.
#[derive(Clone, Copy, PartialEq, Eq)]
pub enum Answer {
    Answered,
    Refused,
    Other(u8),
}

// That it could not be answered at all; why has been said.
#[derive(Clone, Copy, PartialEq, Eq)]
pub struct Failed;

// The exit status.
pub type Status = Result<Answer, Failed>;

impl Answer {
    // What is answered of what was made, or refused.
    pub fn of<T, E>(made: &Result<T, E>) -> Answer
        ensures { Ok result ≡ status_by made.now }
    {
        match made {
            Ok(_) => Answer::Answered,
            Err(_) => Answer::Refused,
        }
    }
}

// What is answered by a number and its place: 0 is no refusal.
impl From<Outcome> for Answer {
    ghost from_gives = { λ outcome answer. Ok answer ≡ status_of outcome };

    fn from(outcome: Outcome) -> Answer {
        if outcome.number == 0 {
            return Answer::Answered;
        }
        Answer::Refused
    }
}

// Where words go: to standard output, or to standard error where standard output takes what is made.
#[derive(Clone, Copy)]
pub enum Stream {
    Output,
    Errors,
}

// What is read: a file, or standard input.
#[derive(Drop)]
pub enum Source {
    Named(File),
    Input(Stdin),
}

impl Read for Source {
    fn read(&mut self, buf: &mut [u8]) -> io::Result<usize> {
        match self {
            Source::Named(file) => file.read(buf),
            Source::Input(input) => input.read(buf),
        }
    }
}

// Room for any name that the system takes.
const ANY_NAME: usize = 4096;

// Room for any line that is said: a word or a name, and why.
const ANY_LINE: usize = 4500;

// A line as it is said.
type Line = Text<ANY_LINE>;

// Linux's number for a name that is too long.
const NAME_TOO_LONG: i32 = 36;

// Room for so many bytes, all zeros.
pub fn room<const N: usize>() -> [u8; N]
    ensures zeros { result ≡ replicate N 0 }
    ensures long { N ≡ length result }
{
    [0; N]
}

// Room for any plan of ours, and for as much of another as decides its verdict; all zeros. Functions of their own, as `name_room`: what the constants are is said by their contracts.
pub fn plan_room() -> [u8; meaning::DECIDING_PLAN]
    ensures zeros { result ≡ replicate deciding_plan 0 }
    ensures long { deciding_plan ≡ length result }
{
    room::<{ meaning::DECIDING_PLAN }>()
}

// Room for any text of the lister; all zeros.
pub fn text_room() -> [u8; meaning::ANY_TEXT]
    ensures zeros { result ≡ replicate any_text 0 }
    ensures long { any_text ≡ length result }
{
    room::<{ meaning::ANY_TEXT }>()
}

// Room for a name; a function of its own, since its contract says how many bytes.
pub fn name_room() -> [u8; ANY_NAME]
    ensures { 4096 ≡ length result }
{
    room()
}

// As many bytes as were answered; never more than buf has, which the answers' contracts give as well.
pub fn within(n: usize, buf: &[u8]) -> usize
    ensures answer { result ≡ min n (length buf.now) }
    ensures part { result ≤ length buf.now }
{
    n.min(buf.len())
}

// Writes bytes to a stream at once.
pub fn put(rt: &HostRuntime, to: Stream, bytes: &[u8]) -> io::Result<()> {
    match to {
        Stream::Output => Print::write_all(&rt.stdout(), bytes),
        Stream::Errors => Print::write_all(&rt.stderr(), bytes),
    }
}

// Says an error in the system's words, without its number.
fn say_reason(line: &mut Line, error: &Error) {
    let mut room = [0u8; 300];
    let mut rest = &mut room[..];
    let _ = write!(rest, "{error}");
    let left = rest.len();
    let end = within(300usize.saturating_sub(left), &room);
    let said = str::from_utf8(&room[..end]).unwrap_or("");
    let words = said
        .split_once(" (os error ")
        .map_or(said, |(words, _)| words);
    line.words(words.as_bytes());
}

// Says on standard error, behind what failed, why.
fn say_why(rt: &HostRuntime, line: &mut Line, error: &Error) {
    line.words(b": ");
    say_reason(line, error);
    line.words(b"\n");
    let _ = put(rt, Stream::Errors, line.as_slice());
}

// Says on standard error what failed and why.
pub fn fail(rt: &HostRuntime, what: &[u8], error: &Error) -> Failed {
    let mut line = Line::new();
    line.words(what);
    say_why(rt, &mut line, error);
    Failed
}

// Writes a text at once; answers the status, whatever it is, after saying so where it could not be written.
pub fn say(rt: &HostRuntime, to: Stream, text: &[u8], status: Status) -> Status
    ensures { OrFailed status result }
{
    match put(rt, to, text) {
        Ok(()) => status,
        Err(error) => Err(fail(rt, b"the answer cannot be written", &error)),
    }
}

// Says an answer about a sheet, a plan or a graph, by what was made.
pub fn say_answer<T, E>(rt: &HostRuntime, to: Stream, text: &[u8], made: &Result<T, E>) -> Status
    ensures { OrFailed (status_by made.now) result }
{
    say(rt, to, text, Ok(Answer::of(made)))
}

// A byte of a name as it is shown: a byte that would end the line, or ring a bell, is a question mark.
fn plain(byte: u8) -> u8
    ensures { result ≡ plain_byte byte }
{
    if byte.is_ascii_control() { b'?' } else { byte }
}

// Says a word and a name as it is shown, which stays on one line, whatever its bytes are.
fn say_shown(line: &mut Line, word: &[u8], path: &[u8])
    ensures { Says 4500 line.old (word.now ++ flattened path.now) line.new }
{
    line.words(word);
    for byte in path {
        line.words(&[plain(*byte)]);
    }
}

// Says a word and a name, on one line.
pub fn say_named(rt: &HostRuntime, to: Stream, word: &[u8], path: &[u8]) -> Failed {
    let mut line = Line::new();
    say_shown(&mut line, word, path);
    line.words(b"\n");
    let _ = say(rt, to, line.as_slice(), Err(Failed));
    Failed
}

// Says which file failed and, on standard error, why.
pub fn say_failed(rt: &HostRuntime, to: Stream, word: &[u8], path: &[u8], error: &Error) -> Failed {
    let mut line = Line::new();
    say_shown(&mut line, b"", path);
    say_why(rt, &mut line, error);
    say_named(rt, to, word, path)
}

// Has what was written to standard output on the device, where it is a regular file, so that no answer can be lost any more.
fn settle(rt: &HostRuntime) -> io::Result<()> {
    let output = "/dev/stdout";
    match fs::metadata(rt, output) {
        Ok(known) if known.is_file() => synced(OpenOptions::new().append(true).open(rt, output)),
        _ => Ok(()),
    }
}

// Whether an error says that nobody can have such a file on the device.
fn is_never_synced(error: &Error) -> bool {
    matches!(
        error.kind(),
        ErrorKind::InvalidInput | ErrorKind::Unsupported
    )
}

// Has a file on the device; one that may not be opened again, or that nobody can have there, is left to the system.
fn synced(file: io::Result<File>) -> io::Result<()> {
    let Ok(file) = file else {
        return Ok(());
    };
    match file.sync_all() {
        Err(error) if !is_never_synced(&error) => Err(error),
        _ => Ok(()),
    }
}

// Answers the exit status, once no answer can be lost any more.
pub fn tell(rt: &HostRuntime, status: Status) -> Status
    ensures { OrFailed status result }
{
    let settled = settle(rt);
    let answer = status?;
    match settled {
        Ok(()) => Ok(answer),
        Err(error) => Err(fail(rt, b"standard output", &error)),
    }
}

// The number that the program ends with.
pub fn exit_number(status: Status) -> u8
    ensures { result ≡ exit_number status }
{
    match status {
        Ok(Answer::Answered) => 0,
        Ok(Answer::Refused) => 1,
        Ok(Answer::Other(_)) | Err(Failed) => 2,
    }
}

// How many arguments there are; more than seven count as eight, since no command takes so many.
pub fn arg_count(rt: &HostRuntime) -> usize {
    (0..8)
        .position(|i| matches!(rt.arg(i, &mut []), Err(FillError::NotPresent)))
        .unwrap_or(8)
}

// Puts argument i into a word; says how long it is, or nothing where there is none or it is too long.
pub fn arg(rt: &HostRuntime, i: usize, word: &mut [u8]) -> Option<usize>
    ensures { IfSome result (λ n. n ≤ length word.new) }
{
    rt.arg(i, word).ok()
}

// The argument in which the starting script says what stands where something is to be written.
const OUTPUT_IS: usize = 1;

// That is what is read itself, or what is written straight; else a regular file or none.
#[derive(Clone, Copy)]
enum Target {
    WhatIsRead,
    Straight,
    Beside,
}

impl From<u8> for Target {
    fn from(byte: u8) -> Target {
        match byte {
            b'=' => Target::WhatIsRead,
            b'>' => Target::Straight,
            _ => Target::Beside,
        }
    }
}

// Whether a name stands for standard input or output.
pub fn is_dash(path: &[u8]) -> bool
    ensures { result ≡ is_dash path.now }
{
    matches!(path, [b'-'])
}

// A name as the system's calls take it here.
fn text_of(path: &[u8]) -> io::Result<&str> {
    str::from_utf8(path).map_err(|_| Error::new(
        ErrorKind::InvalidFilename,
        "a name that is not UTF-8",
    ))
}

// What was read of a file: so many bytes, and why no more where that is not its end. No Result: a faulty line of a text decides, whether or not what is behind it could be read.
#[derive(Clone, Copy)]
pub struct Got {
    pub bytes: usize,
    pub failed: Option<Error>,
}

impl Got {
    // How many bytes were read to the file's end, or as far as there was room.
    pub fn whole(self) -> io::Result<usize>
        ensures { MatchOption self.failed (result ≡ Ok self.bytes) (λ error. result ≡ Err error) }
    {
        match self.failed {
            None => Ok(self.bytes),
            Some(error) => Err(error),
        }
    }
}

// Reads until a buffer is full, a file ends or reading it fails.
pub fn read_full(from: &mut Source, buf: &mut [u8]) -> Got
    ensures { result.bytes ≤ length buf.new }
{
    let mut done = 0;
    let mut failed = None;
    while done < buf.len() {
        match from.read(&mut buf[done..]) {
            Ok(0) => break,
            Ok(n) => done += n,
            Err(error) => {
                failed = Some(error);
                break;
            }
        }
    }
    Got {
        bytes: done,
        failed,
    }
}

fn open_read(rt: &HostRuntime, path: &[u8]) -> io::Result<Source> {
    if is_dash(path) {
        return Ok(Source::Input(rt.stdin()));
    }
    Ok(Source::Named(File::open(rt, text_of(path)?)?))
}

// Opens a file to be read, or says that it cannot be read.
pub fn open_named(rt: &HostRuntime, to: Stream, path: &[u8]) -> Result<Source, Failed> {
    open_read(rt, path).map_err(|error| say_failed(rt, to, b"unreadable ", path, &error))
}

// Says that an argument is too long to be a name.
fn say_too_long(rt: &HostRuntime, to: Stream, word: &[u8]) -> Failed {
    let error = Error::from_raw_os_error(NAME_TOO_LONG);
    say_failed(rt, to, word, b"a name that is too long", &error)
}

// Puts the name that argument i is into path; says how long it is, or that it is too long.
fn name_of(
    rt: &HostRuntime,
    to: Stream,
    word: &[u8],
    i: usize,
    path: &mut [u8],
) -> Result<usize, Failed>
    ensures { IfOk result (λ n. n ≤ length path.new) }
{
    match arg(rt, i, path) {
        Some(n) => Ok(n),
        None => Err(say_too_long(rt, to, word)),
    }
}

// The same of a name that is read.
pub fn name_to_read(
    rt: &HostRuntime,
    to: Stream,
    i: usize,
    path: &mut [u8],
) -> Result<usize, Failed>
    ensures { IfOk result (λ n. n ≤ length path.new) }
{
    name_of(rt, to, b"unreadable ", i, path)
}

// Reads the file that argument i names into buf; answers how many bytes, or says that it cannot be read.
pub fn read_file(rt: &HostRuntime, to: Stream, i: usize, buf: &mut [u8]) -> Result<usize, Failed>
    ensures { IfOk result (λ n. n ≤ length buf.new) }
{
    let mut path = name_room();
    let n = name_to_read(rt, to, i, &mut path)?;
    let mut source = open_named(rt, to, &path[..n])?;
    match read_full(&mut source, buf).whole() {
        Ok(bytes) => Ok(bytes),
        Err(error) => Err(say_failed(rt, to, b"unreadable ", &path[..n], &error)),
    }
}

// Where the folder's part of a path ends.
fn folder_end(path: &[u8]) -> usize
    ensures { result ≤ length path.now }
{
    path.iter()
        .rposition(|byte| *byte == b'/')
        .map_or(0, |i| i + 1)
}

// Eight letters that no other run has.
fn own_letters(rt: &HostRuntime) -> [u8; 8] {
    let mut letters = [0u8; 8];
    let _ = rt.fill_bytes(&mut letters);
    letters.map(|byte| b'a' + byte % 16)
}

// Puts a name of its own in the same folder into name; answers how long it is. No `Text`: what has no room here is left out whole, not cut off, and a name without its letters is a name.
fn name_beside(rt: &HostRuntime, path: &[u8], name: &mut [u8]) -> usize {
    let a = lines::put_words(&path[..folder_end(path)], name, 0);
    let b = lines::put_words(b".yard-", name, a);
    lines::put_words(&own_letters(rt), name, b)
}

// Writes a plan or a text to a new file and has it on the device.
fn write_new(mut file: File, bytes: &[u8]) -> io::Result<()> {
    file.write_all(bytes)?;
    file.sync_all()
}

// Writes it to a new file and gives that the name that was asked for.
fn write_and_rename(
    rt: &HostRuntime,
    file: File,
    beside: &str,
    path: &str,
    bytes: &[u8],
) -> io::Result<()> {
    write_new(file, bytes)?;
    fs::rename(rt, beside, path)
}

// Writes it beside and gives it the name that was asked for; the file of that name stays whole where that fails.
fn replace(rt: &HostRuntime, path: &str, bytes: &[u8]) -> io::Result<()> {
    let mut name = name_room();
    let end = name_beside(rt, path.as_bytes(), &mut name);
    let n = within(end, &name);
    let beside = text_of(&name[..n])?;
    let file = OpenOptions::new()
        .write(true)
        .create_new(true)
        .open(rt, beside)?;
    let written = write_and_rename(rt, file, beside, path, bytes);
    if written.is_err() {
        let _ = fs::remove_file(rt, beside);
    }
    written
}

// Whether the file of a name may be written, or is not there yet; an error where it may not.
fn may_replace(rt: &HostRuntime, path: &str) -> io::Result<()> {
    match OpenOptions::new().append(true).open(rt, path) {
        Ok(_) => Ok(()),
        Err(error) if error.kind() == ErrorKind::NotFound => Ok(()),
        Err(error) => Err(error),
    }
}

// Writes it to what has a name and is no regular file.
fn write_straight(rt: &HostRuntime, path: &str, bytes: &[u8]) -> io::Result<()> {
    let mut file = File::create(rt, path)?;
    file.write_all(bytes)
}

fn write_as(rt: &HostRuntime, path: &[u8], bytes: &[u8], is_straight: bool) -> io::Result<()> {
    if is_dash(path) {
        return put(rt, Stream::Output, bytes);
    }
    let path = text_of(path)?;
    if is_straight {
        return write_straight(rt, path, bytes);
    }
    may_replace(rt, path)?;
    replace(rt, path, bytes)
}

// What the starting script knows of the file that a plan or a text is to go to.
fn output(rt: &HostRuntime) -> Target {
    let mut word = [0u8; 1];
    let _ = rt.arg(OUTPUT_IS, &mut word);
    Target::from(word[0])
}

// Writes a plan, a book or a text to the file of a name, which is never the sheet nor a book's plan, or says that it cannot.
fn write_to(rt: &HostRuntime, to: Stream, path: &[u8], bytes: &[u8]) -> Result<(), Failed> {
    let target = output(rt);
    if let Target::WhatIsRead = target {
        say_named(
            rt,
            Stream::Errors,
            b"what is read is not written over: ",
            path,
        );
        return Err(say_named(rt, to, b"unwritable ", path));
    }
    write_as(rt, path, bytes, matches!(target, Target::Straight)).map_err(|error| say_failed(
        rt,
        to,
        b"unwritable ",
        path,
        &error,
    ))
}

// The same of the file that argument i names.
pub fn write_file(rt: &HostRuntime, to: Stream, i: usize, bytes: &[u8]) -> Result<(), Failed> {
    let mut path = name_room();
    let n = name_of(rt, to, b"unwritable ", i, &mut path)?;
    write_to(rt, to, &path[..n], bytes)
}
