//! Cases one after another: the case at hand, its disk and its keeper, and what was written so far.
use crate::outcome::{outcome, push_line, push_turn};
use crate::runs::{file_of, keeper_of, run};
use crate::step::{Kind, Step};
use adx_units::OutOfMemory;
use day_archive::MemoryKeeper;
use std::alloc::Global;

/// The cases so far.
#[derive(Drop)]
pub(crate) struct Playing {
    out: String,
    roster: String,
    file: Vec<u8>,
    keeper: MemoryKeeper,
    step: Option<Step>,
}

/// The byte that two hexadecimal digits spell.
fn byte_of(pair: &[u8]) -> u8 {
    u8::from_str_radix(std::str::from_utf8(pair).unwrap_or(""), 16).unwrap_or(0)
}

/// Puts the bytes that hexadecimal digits spell in place of others.
fn set_bytes(bytes: &mut Vec<u8>, digits: &str) -> Result<(), OutOfMemory> {
    bytes.clear();
    for pair in digits.as_bytes().chunks(2) {
        bytes.push(byte_of(pair))?;
    }
    Ok(())
}

/// The roster by which a step's images are looked at.
fn roster_for<'a>(step: &Step, roster: &'a str) -> Option<&'a str> {
    if step.shows_images {
        Some(roster)
    } else {
        None
    }
}

/// Adds what came of a run, or that it is what came of the one before, and keeps it.
fn push_outcome(out: &mut String, last: &mut String, came: String) -> Result<(), OutOfMemory> {
    if came.as_str() == last.as_str() {
        return Ok(out.push_str("as before\n")?);
    }
    out.push_str(came.as_str())?;
    *last = came;
    Ok(())
}

impl Playing {
    /// No case yet.
    pub(crate) fn new(alloc: Global) -> Result<Playing, OutOfMemory> {
        let keeper = MemoryKeeper::new(alloc, &[])?;
        Ok(Playing {
            out: String::new(alloc),
            roster: String::new(alloc),
            file: Vec::new(alloc),
            keeper,
            step: None,
        })
    }

    /// What was written.
    pub(crate) fn written(self) -> String {
        self.out
    }

    /// Begins a case.
    fn begin(&mut self, alloc: Global, name: &str) -> Result<(), OutOfMemory> {
        self.file.clear();
        self.roster.clear();
        self.keeper = MemoryKeeper::new(alloc, &[])?;
        push_line(&mut self.out, "==", name)
    }

    /// Begins a run of the case.
    fn begin_run(&mut self, alloc: Global, words: &str) -> Result<(), OutOfMemory> {
        let step = Step::new(alloc, words)?;
        self.step = Some(step);
        push_line(&mut self.out, "$", words)
    }

    /// Follows a line.
    pub(crate) fn follow(&mut self, alloc: Global, line: &str) -> Result<(), OutOfMemory> {
        let (word, rest) = line.split_once(' ').unwrap_or((line, ""));
        match word {
            "==" => {
                self.finish(alloc)?;
                self.begin(alloc, rest)
            }
            "$" => {
                self.finish(alloc)?;
                self.begin_run(alloc, rest)
            }
            "file" => set_bytes(&mut self.file, rest),
            _ => self.follow_step(line),
        }
    }

    /// Follows a line of the run at hand. The first line of a case's input is its roster.
    fn follow_step(&mut self, line: &str) -> Result<(), OutOfMemory> {
        if self.roster.is_empty() {
            self.roster.push_str(line.strip_prefix("> ").unwrap_or(""))?;
        }
        match &mut self.step {
            Some(step) => step.follow(line),
            None => Ok(()),
        }
    }

    /// Makes the run at hand, where there is one.
    pub(crate) fn finish(&mut self, alloc: Global) -> Result<(), OutOfMemory> {
        match self.step.take() {
            Some(step) => match step.each {
                Some((kind, count)) => self.run_each(alloc, &step, kind, count),
                None => self.run_once(alloc, &step),
            },
            None => Ok(()),
        }
    }

    /// Makes a run, and keeps its disk.
    fn run_once(&mut self, alloc: Global, step: &Step) -> Result<(), OutOfMemory> {
        if !step.keeper.is_empty() {
            self.keeper = keeper_of(alloc, step, None)?;
        }
        let mut ran = run(alloc, step, None, self.file.as_slice(), &mut self.keeper)?;
        let came = outcome(alloc, &ran, roster_for(step, self.roster.as_str()))?;
        self.out.push_str(came.as_str())?;
        self.file = file_of(alloc, &mut ran.disk)?;
        Ok(())
    }

    /// Makes a run for each number, over the same disk and a keeper without a day.
    fn run_each(
        &mut self,
        alloc: Global,
        step: &Step,
        kind: Kind,
        count: u64,
    ) -> Result<(), OutOfMemory> {
        let mut last = String::new(alloc);
        for call in 0..count {
            self.run_turn(alloc, step, (kind, call), &mut last)?;
        }
        Ok(())
    }

    /// Makes the run of a turn.
    fn run_turn(
        &mut self,
        alloc: Global,
        step: &Step,
        turn: (Kind, u64),
        last: &mut String,
    ) -> Result<(), OutOfMemory> {
        let mut keeper = keeper_of(alloc, step, Some(turn))?;
        let ran = run(alloc, step, Some(turn), self.file.as_slice(), &mut keeper)?;
        let came = outcome(alloc, &ran, roster_for(step, self.roster.as_str()))?;
        push_turn(&mut self.out, turn.0, turn.1)?;
        push_outcome(&mut self.out, last, came)
    }
}
