//! The program: on a separate thread it makes the objects of the edge and calls `csplay` with the
//! command-line arguments, or `csplay_alone` if they ask for one worker; the exit status is the status's
//! number. Its only promise is the contract of these calls.
#![tactic(auto)]

use cs_desk::Tally;
use cs_edge::{Failed, FileShelf, FileSink, OpenGate, PeakTap, Sink, TalkOut, Tap, write_all};
use cs_play::{Status, asks_for_one, csplay, csplay_alone};
use std::alloc::AllocError;
use std::process::ExitCode;
use std::rt::{Env, Files};
use std::sync::Wait;
use std::thread::{Builder, Threads};
use std::{env, fs, io};

// The stack size in bytes of the program's thread: five times what the deepest text found needs.
const STACK: usize = 1 << 24;

// The stack size in bytes if memory for `STACK` and a run can't be had: more than the deepest text found needs.
const SMALL_STACK: usize = 1 << 22;

// The memory in bytes that is left for a run beside a stack of `STACK` bytes. With less a small stack serves better.
// Both together are more than 32 MB: after a smaller block is given back, the C library takes blocks of up to its size
// from its heap, where a list that grows is copied.
const LEAST_MEMORY: usize = 20 << 20;

// The file on which a closed descriptor is opened for reading: reads find no byte there, and writes fail.
const NULL_DEVICE: &str = "/dev/null";

// Runs on a separate thread, so that the size of the stack on which the system starts a program doesn't
// matter. If no thread can be started the run ends as out of memory.
fn main(rt: HostRuntime) -> ExitCode {
    let builder = Builder::new().stack_size(stack_size(&rt));
    let status = match builder.spawn(&rt, move || run(&rt)) {
        Ok(thread) => thread.join(&rt),
        Err(_) => {
            let builder = Builder::new().stack_size(SMALL_STACK);
            match builder.spawn(&rt, move || run(&rt)) {
                Ok(thread) => thread.join(&rt),
                Err(_) => starved(&rt),
            }
        }
    };
    ExitCode::from(status.number())
}

// Returns the stack size of the program's thread: `STACK` if there is memory for it and for a run, `SMALL_STACK`
// otherwise. The memory is asked for and given back at once.
fn stack_size<R: AllocGlobal>(rt: &R) -> usize {
    match Vec::<u8>::with_capacity(rt.alloc(), STACK + LEAST_MEMORY) {
        Ok(_) => STACK,
        Err(_) => SMALL_STACK,
    }
}

// Reads the command-line arguments and performs what they ask for. The descriptors 0 to 2 stay in use meanwhile, so
// no file that is opened gets the number of standard output, and no report is written into a sound file.
fn run<R: Env + Files + Print + AllocGlobal + Threads + Wait + Sync>(rt: &R) -> Status {
    let _input = opened_if_closed(rt, "/dev/fd/0");
    let _output = opened_if_closed(rt, "/dev/fd/1");
    let _errors = opened_if_closed(rt, "/dev/fd/2");
    match words_of(rt) {
        Ok(words) => follow(rt, &words),
        Err(_) => starved(rt),
    }
}

// Opens the null device if the descriptor with this name is closed. Called for the descriptors in ascending order, so
// the system gives it that number. Without `/proc` every descriptor looks closed, and up to three more are used.
fn opened_if_closed<R: Files>(rt: &R, descriptor: &str) -> Option<R::File> {
    match fs::metadata(rt, descriptor) {
        Ok(_) => None,
        Err(_) => fs::open(rt, NULL_DEVICE).ok(),
    }
}

// Performs what the arguments ask for, with a meter of the peak.
fn follow<R: Files + Print + AllocGlobal + Threads + Wait + Sync>(
    rt: &R,
    words: &[String],
) -> Status {
    match Box::new(rt.alloc(), PeakTap::new()) {
        Ok(peak) => metered(rt, words, peak),
        Err(_) => starved(rt),
    }
}

// Performs what the arguments ask for, with this meter. The list of meters is made here, since a function
// that returns such a list can't be proved.
fn metered<R: Files + Print + AllocGlobal + Threads + Wait + Sync>(
    rt: &R,
    words: &[String],
    peak: Box<PeakTap>,
) -> Status {
    let mut taps: Vec<Box<dyn Tap>> = Vec::new(rt.alloc());
    match taps.push(peak) {
        Ok(()) => play(rt, words, &mut taps),
        Err(_) => starved(rt),
    }
}

// Performs what the arguments ask for with the system's files and standard output, and writes the buffered
// rest of the last line. If they ask for one worker the call has no runtime, so it waits for no thread.
fn play<R: Files + Print + AllocGlobal + Threads + Wait + Sync>(
    rt: &R,
    words: &[String],
    taps: &mut Vec<Box<dyn Tap>>,
) -> Status {
    let alloc = rt.alloc();
    let (mut shelf, mut wav) = (FileShelf::new(rt), FileSink::new(rt, alloc));
    let mut talk = TalkOut::new(io::writer(rt), alloc);
    let (gate, mut tally) = (&OpenGate::new(), Tally::new());
    let (shelf, wav, tally) = (&mut shelf, &mut wav, &mut tally);
    let status = if asks_for_one(alloc, words) {
        csplay_alone(alloc, words, shelf, wav, &mut talk, taps, gate, tally)
    } else {
        csplay(rt, alloc, words, shelf, wav, &mut talk, taps, gate, tally)
    };
    ended(status, talk.end())
}

// Returns the status of a run after the last write to `talk`: a report that isn't written to its end is a
// TalkFault.
fn ended(status: Status, last: Result<(), Failed>) -> Status {
    match (status, last) {
        (Status::Ok, Err(_)) => Status::TalkFault,
        _ => status,
    }
}

// Ends as out of memory before the call.
fn starved<R: Print + AllocGlobal>(rt: &R) -> Status {
    match write_all(
        &mut TalkOut::new(io::writer(rt), rt.alloc()),
        b"out of memory\n",
    ) {
        Ok(()) | Err(_) => Status::OutOfMemory,
    }
}

// Returns the command-line arguments, or none if one of them isn't UTF-8, so that the program prints its
// usage.
fn words_of<R: Env + AllocGlobal>(rt: &R) -> Result<Vec<String>, AllocError> {
    match env::args(rt) {
        Ok(args) => args.skip(1).collect(rt.alloc()),
        Err(error) if error.kind() == io::ErrorKind::OutOfMemory => Err(AllocError),
        Err(_) => Ok(Vec::new(rt.alloc())),
    }
}
