//! Carries out the scenarios of the files that its arguments name, once as they are and by all
//! sweeps; those after `said` only as they are, those after `swept` only by sweeps. Prints what
//! differs, and how many there are.
#![tactic(auto)]

use scenarios::{Counted, Ways, carry_out_text};
use std::env::Env;
use std::process::ExitCode;
use std::rt::Files;
use std::sync::Wait;
use std::thread::Threads;
use std::{env, fs, io};

/// Prints the result of a file: what differs, and one line of counts.
fn print_counted<R: Print>(rt: &R, path: &str, counted: &Counted, ways: Ways) -> io::Result<()> {
    let (scenarios, sweeps, differ) = (counted.scenarios, counted.sweeps, counted.differ);
    print!(rt; "{}{path}: {scenarios} scenarios, ", counted.found.as_str())?;
    if ways.swept {
        print!(rt; "{sweeps} sweeps, ")?;
    }
    println!(rt; "{differ} differ")
}

/// Carries out the scenarios of a file, and prints the result; returns how many runs differ. A file
/// that can't be read, or isn't of the form of scenarios, counts as one.
fn run_file<R>(rt: &R, path: &str, ways: Ways) -> io::Result<u64>
where
    R: Files + Print + AllocGlobal + Threads + Wait + Sync,
{
    let Ok(text) = fs::read_to_string(rt, path) else {
        println!(rt; "{path}: it can't be read")?;
        return Ok(1);
    };
    let Ok(counted) = carry_out_text(rt, (rt.alloc(), path), text.as_str(), ways) else {
        return Err(io::Error::from(io::ErrorKind::OutOfMemory));
    };
    if !counted.is_read {
        print!(rt; "{}", counted.found.as_str())?;
        return Ok(1);
    }
    print_counted(rt, path, &counted, ways)?;
    Ok(counted.differ)
}

/// Carries out the files that the arguments name, each in the ways of the last of the words `said`
/// and `swept` before it; returns how many runs differ.
fn run_words<R>(rt: &R) -> io::Result<u64>
where
    R: Env + Files + Print + AllocGlobal + Threads + Wait + Sync,
{
    let mut ways = Ways {
        said: true,
        swept: true,
    };
    let mut differ: u64 = 0;
    for word in env::args(rt)?.skip(1) {
        match word.as_str() {
            "said" | "swept" => {
                ways = Ways {
                    said: word.as_str() == "said",
                    swept: word.as_str() == "swept",
                };
            }
            path => differ = differ.saturating_add(run_file(rt, path, ways)?),
        }
    }
    Ok(differ)
}

fn main(rt: HostRuntime) -> ExitCode {
    match run_words(&rt) {
        Ok(0) => ExitCode::SUCCESS,
        _ => ExitCode::FAILURE,
    }
}
