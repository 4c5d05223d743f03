// Carries out a list of calls, line by line, and prints what each call answered. The list is in the files
// that are the program's arguments, one after another, or else in standard input.
#![tactic(auto)]

mod client;
mod command;
mod delta_text;
mod entry;
mod line_error;
mod session;
mod tables;
mod tally;
mod text_unit;
mod words;

use client::Client;
use line_error::LineError;
use std::env;
use std::env::Args;
use std::fmt::Display;
use std::fs::File;
use std::io::{BufRead, BufReader};
use std::iter::Skip;
use std::process::ExitCode;
use words::{Quoted, Words};

// The run ended early, and standard error says why, from where that is known: an error that `main` returns is printed
// once more, and one that keeps just its text cuts a long word or file name.
struct Stopped;

fn main(rt: HostRuntime) -> ExitCode {
    match run(&rt) {
        Ok(()) => ExitCode::SUCCESS,
        Err(Stopped) => ExitCode::FAILURE,
    }
}

// Carries out the whole list, and prints how many calls were accepted and refused.
fn run(rt: &HostRuntime) -> Result<(), Stopped> {
    let names = env::args(rt).map_err(|error| stop(rt, error))?;
    let client = Client::new(rt.alloc()).map_err(|_| stop(rt, "out of memory"))?;
    let mut replay = Replay {
        rt,
        client,
        lines: 0,
    };
    replay.files(names.skip(1))?;
    let tally = replay.client.tally();
    println!(rt; "end: {tally}").map_err(|error| stop(rt, error))
}

fn stop(rt: &HostRuntime, why: impl Display + Drop) -> Stopped {
    let _ = eprintln!(rt; "{why}");
    Stopped
}

// A list on its way: whom it serves, and how many of its lines were read.
#[derive(Drop)]
struct Replay<'r> {
    rt: &'r HostRuntime,
    client: Client,
    lines: u64,
}

impl Replay<'_> {
    // Carries out the lists in these files, or that of standard input where there are none.
    fn files(&mut self, names: Skip<Args>) -> Result<(), Stopped> {
        let rt = self.rt;
        let mut names = names.peekable();
        if names.peek().is_none() {
            let input = BufReader::new(rt.alloc(), rt.stdin()).map_err(|error| stop(rt, error))?;
            return self.input(input);
        }
        for name in names {
            let input = File::open(rt, name.as_str())
                .and_then(|file| BufReader::new(rt.alloc(), file))
                .map_err(|error| stop(rt, format_args!("{name}: {error}")))?;
            self.input(input)?;
        }
        Ok(())
    }

    // Carries out the lines of one input.
    fn input(&mut self, input: impl BufRead + Drop) -> Result<(), Stopped> {
        for line in input.lines(self.rt.alloc()) {
            self.lines = self.lines.saturating_add(1);
            let line = line.map_err(|error| self.stop_at_line(LineError::Unread(error), None))?;
            self.line(line.as_str())?;
        }
        Ok(())
    }

    // Carries out a line. One that begins with `#` is a comment.
    fn line(&mut self, line: &str) -> Result<(), Stopped> {
        if line.starts_with('#') {
            return Ok(());
        }
        let mut words = Words::new(self.rt.alloc(), line);
        self.client
            .carry_out(self.rt, &mut words)
            .map_err(|error| self.stop_at_line(error, words.at()))
    }

    // Says what is wrong with the line that was read last, and with which word of it, if it is one.
    fn stop_at_line(&self, error: LineError, word: Option<&str>) -> Stopped {
        let number = self.lines;
        match word {
            Some(word) => {
                let word = Quoted(word);
                stop(self.rt, format_args!("line {number}: {error}: {word}"))
            }
            None => stop(self.rt, format_args!("line {number}: {error}")),
        }
    }
}
