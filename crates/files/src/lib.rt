// Files: read into lent buffers, and what to say of one that cannot be read; and words written.
//
// No contract can say what the system reads: that the bytes which came are those of the file is seen by running.
#![tactic(auto)]

ghost use Rattle.std.specs.Prelude.{◌≡◌, cond, Ok, Err, None, MatchResult, IfOk, IfSome, ◌+◌, ◌<◌, ◌≤◌, ◌^◌, length};
ghost use Rattle.append.specs.Said.{left, said_of};
ghost use Rattle.files.specs.Came.{Came};
ghost use Rattle.files.specs.Unreadable.{cause_of, unreadable_of};

use std::env::FillError;
use std::fs::File;
use std::io::{Error, Read};
use std::rt::{Env, Files};
use std::{io, str};

// Room for what is said of a file, and for a sentence.
const ROOM: usize = 512;

// Room for a path. A longer one is not opened.
pub const PATH: usize = 4096;

// The system's numbers for why a file cannot be read: Linux has them on each processor.
const NO_SUCH_FILE: i32 = 2;

const NO_PERMISSION: i32 = 13;

const IS_FOLDER: i32 = 21;

// Where words are written: standard output and standard error.
#[derive(Clone, Copy)]
pub enum Stream {
    Out,
    Err,
}

// What a program asks of the system: files, its arguments, and two streams that take bytes.
pub trait System: Files + Env {
    // Writes all of the bytes, or as many as the stream takes.
    fn put(&self, to: Stream, words: &[u8]) -> io::Result<()>;
}

impl System for HostRuntime {
    fn put(&self, to: Stream, words: &[u8]) -> io::Result<()> {
        match to {
            Stream::Out => self.stdout().write_all(words),
            Stream::Err => self.stderr().write_all(words),
        }
    }
}

// A file that a program takes: the argument that names it; what it is; its name in the current folder, where it is
// found when there is no such argument; and all that the program takes.
#[derive(Clone, Copy)]
pub struct Wanted<'a> {
    pub argument: usize,
    pub what: &'a [u8],
    pub name: &'a [u8],
    pub all: &'a [u8],
}

// What keeps a file from being read.
#[derive(Clone, Copy, PartialEq, Eq)]
pub enum Fault {
    Missing,
    Barred,
    Folder,
    Other,
}

// A file of which no byte counts: why, whether an argument names it, and whether it could be opened at all. One that
// could not leaves the buffer as it was.
#[derive(Clone, Copy)]
pub struct Unread {
    pub fault: Fault,
    pub is_named: bool,
    pub is_opened: bool,
}

// The fault behind the system's error.
fn reason(error: Error) -> Fault {
    match error.raw_os_error() {
        Some(NO_SUCH_FILE) => Fault::Missing,
        Some(NO_PERMISSION) => Fault::Barred,
        Some(IS_FOLDER) => Fault::Folder,
        _ => Fault::Other,
    }
}

// The place behind the bytes that a read brings to place `at`; none where it fails.
fn behind(at: usize, read: Result<usize, Fault>) -> Result<usize, Fault>
    requires { IfOk read (λ count. at + count < 2 ^ 64) }
    ensures { MatchResult read (λ count. result ≡ Ok (at + count)) (λ fault. result ≡ Err fault) }
{
    read.map(|count| at + count)
}

// One read into `buffer` from place `at` on; gives the place behind what came.
fn more(file: &mut impl Read, buffer: &mut [u8], at: usize) -> Result<usize, Fault>
    requires { at ≤ length buffer.old }
    ensures { IfOk result (λ end. end ≤ length buffer.new) }
{
    let read = file.read(&mut buffer[at..]).map_err(reason);
    behind(at, read)
}

// How far a file came into a buffer: the bytes in front of it, and the fault of the read that failed, if one did.
#[derive(Clone, Copy)]
pub struct Filled {
    pub count: usize,
    pub fault: Option<Fault>,
}

fn ended(count: usize, fault: Option<Fault>) -> Filled
    ensures { result.count ≡ count }
{
    Filled { count, fault }
}

// Reads until the buffer is full, the file ends or a read fails.
pub fn fill_front(file: &mut impl Read, buffer: &mut [u8]) -> Filled
    ensures { result.count ≤ length buffer.new }
{
    let mut at = 0;
    // how far a read comes is known only behind it, so no range counts the places
    while at < buffer.len() {
        let end = match more(file, buffer, at) {
            Ok(end) => end,
            Err(fault) => return ended(at, Some(fault)),
        };
        if end <= at {
            return ended(at, None);
        }
        at = end;
    }
    ended(at, None)
}

// How many bytes count: none where a read failed.
fn counted(filled: Filled) -> Result<usize, Fault>
    ensures failed { IfSome filled.fault (λ fault. result ≡ Err fault) }
    ensures read { filled.fault ≡ None → result ≡ Ok filled.count }
{
    match filled.fault {
        None => Ok(filled.count),
        Some(fault) => Err(fault),
    }
}

// Reads until the buffer is full or the file ends, and gives how many bytes came; none count where a read fails.
pub fn fill(file: &mut impl Read, buffer: &mut [u8]) -> Result<usize, Fault>
    ensures { IfOk result (λ count. count ≤ length buffer.new) }
{
    counted(fill_front(file, buffer))
}

// Opens the file at a path, or says why it cannot be opened. The system is asked only for a path that is UTF-8.
fn open_path<R: Files>(rt: &R, path: &[u8]) -> Result<R::File, Fault> {
    match str::from_utf8(path) {
        Ok(path) => File::open(rt, path).map_err(reason),
        Err(_) => Err(Fault::Other),
    }
}

// Opens the file that the argument names or, without one, the file in the folder.
fn open<R: System>(rt: &R, is_named: bool, file: Wanted) -> Result<R::File, Fault> {
    if !is_named {
        return open_path(rt, file.name);
    }
    let mut path = [0u8; PATH];
    match rt.arg(file.argument, &mut path) {
        Ok(length) => open_path(rt, &path[0..length]),
        Err(_) => Err(Fault::Other),
    }
}

// Does the program have this argument? Argument 0 is its own name.
fn is_given(rt: &impl Env, argument: usize) -> bool {
    !matches!(rt.arg(argument, &mut [0u8; 0]), Err(FillError::NotPresent))
}

// How many arguments the program has, its own name among them.
pub fn arguments(rt: &impl Env) -> usize {
    (0..usize::MAX)
        .find(|i| !is_given(rt, *i))
        .unwrap_or(usize::MAX)
}

// The argument goes to the front of `out`; gives how long it is, if there is one and `out` has room for it.
pub fn argument(rt: &impl Env, argument: usize, out: &mut [u8]) -> Option<usize>
    ensures { IfSome result (λ count. count ≤ length out.new) }
{
    rt.arg(argument, out).ok()
}

// Reads the file, no further than the buffer goes: one of a byte more than the longest that can be right shows a file
// that is too long.
pub fn read(rt: &impl System, file: Wanted, buffer: &mut [u8]) -> Result<usize, Unread>
    ensures { Came result buffer.old buffer.new }
{
    let is_named = file.argument < arguments(rt);
    let mut opened = open(rt, is_named, file).map_err(|fault| Unread {
        fault,
        is_named,
        is_opened: false,
    })?;
    fill(&mut opened, buffer).map_err(|fault| Unread {
        fault,
        is_named,
        is_opened: true,
    })
}

// Where the file was looked for: the argument, or 0 for the folder.
fn place(is_named: bool, argument: usize) -> usize
    ensures { result ≡ cond is_named argument 0 }
{
    if is_named { argument } else { 0 }
}

// Why it cannot be read, as the sentence counts it.
fn cause(fault: Fault, is_named: bool) -> usize
    ensures { result ≡ cause_of fault is_named }
{
    match fault {
        Fault::Missing => if is_named { 1 } else { 0 },
        Fault::Barred => 2,
        Fault::Folder => 3,
        Fault::Other => 4,
    }
}

// What to say of a file that could not be read goes to the front of `out`; gives how long it is.
fn complaint(unread: Unread, file: Wanted, out: &mut [u8]) -> usize
    ensures { left result out.new ≡ said_of (unreadable_of unread.fault unread.is_named file.entry.argument file.entry.what.now file.entry.name.now file.entry.all.now) out.old 0 }
{
    let place = place(unread.is_named, file.argument);
    let cause = cause(unread.fault, unread.is_named);
    let begun = sentence::fill(b"The $ (", &[], file.what, out, 0);
    let found = sentence::fill(
        b"[$ in this folder|the first argument|the second argument|the third argument|a later argument]",
        &[place],
        file.name,
        out,
        begun,
    );
    sentence::fill(
        b") cannot be read: [there is no such file. Put it there, or name $.|there is no such file. Correct the path.|you have no permission. Have the file made readable for you.|it is a folder. Name the file itself.|the system cannot read it. See that the path names a file that can be read.]",
        &[cause],
        file.all,
        out,
        found,
    )
}

// Says on standard error why a file could not be read, and what to do.
pub fn unreadable(rt: &impl System, unread: Unread, file: Wanted) {
    let mut room = [0u8; ROOM];
    let count = complaint(unread, file, &mut room);
    write(rt, Stream::Err, &room, count);
    write(rt, Stream::Err, b"\n", 1);
}

// Writes the first `count` bytes, or all where there are not so many: what lays out words says a place and not that it
// lies in the buffer, so that is seen to here, once.
pub fn write(rt: &impl System, to: Stream, words: &[u8], count: usize) {
    let _ = rt.put(to, &words[0..count.min(words.len())]);
}

// Says a sentence, as the crate `sentence` reads a template.
pub fn say(rt: &impl System, to: Stream, template: &[u8], numbers: &[usize]) {
    let mut room = [0u8; ROOM];
    let count = sentence::fill(template, numbers, b"", &mut room, 0);
    write(rt, to, &room, count);
}
