//! A walk: its name, and then steps at one desk, with an empty line before each. A step is requests
//! and imports that come in one run, and then their answers.

use crate::kept_cells::are_as_counted;
use crate::rehearsal_desk::{desk_for, number_after};
use crate::reply_line::{is_answer, line_of};
use crate::request_lines::items_of;
use contest_desk::{Answer, Desk};
use contest_store::MemoryStore;
use contest_types::{Marks, Moment, Refusal, Settings};
use std::alloc::{AllocError, Global};
use std::test::Fail;

/// What came of a walk: each step that was answered otherwise than it says, and a line for the
/// whole.
pub fn report_of(alloc: Global, walk: &str) -> Result<String, Fail> {
    let mut report = String::new(alloc);
    add_walk(alloc, &mut report, walk)?;
    Ok(report)
}

/// Goes a walk from its desk on, and tells of it.
fn add_walk(alloc: Global, report: &mut String, walk: &str) -> Result<(), Fail> {
    let mut desk = desk_for(alloc, walk)?;
    let gone = add_steps(alloc, report, &mut desk, walk);
    let store = desk.into_store();
    add_end(alloc, report, gone, &store)
}

/// Goes the steps of a walk, and tells how they went and what stands then.
fn add_steps(
    alloc: Global,
    report: &mut String,
    desk: &mut Desk<MemoryStore>,
    walk: &str,
) -> Result<(), Fail> {
    let (steps, met) = go(alloc, report, desk, walk)?;
    let standing = standing_text(alloc, desk)?;
    let (name, _) = walk.split_once('\n').unwrap_or((walk, ""));
    let whole = format!(in alloc; "{name}: {met} of {steps}, {standing}")?;
    report.push_str(whole.as_str())?;
    Ok(())
}

/// Tells how often the store failed in a walk that was gone, and whether it kept the cells right.
fn add_end(
    alloc: Global,
    report: &mut String,
    gone: Result<(), Fail>,
    store: &MemoryStore,
) -> Result<(), Fail> {
    gone?;
    let faults = store.faults();
    let cells = if are_as_counted(alloc, store)? {
        "cells as counted"
    } else {
        "OTHER CELLS"
    };
    let text = format!(in alloc; ", faults of the store: {faults}, {cells}\n")?;
    report.push_str(text.as_str())?;
    Ok(())
}

/// What stands at the end: how many teams, and the start in milliseconds, 0 where none is set; or
/// why that isn't told.
fn standing_text(alloc: Global, desk: &mut Desk<MemoryStore>) -> Result<String, AllocError> {
    let standing = desk.fixed(alloc);
    setup_text(alloc, &standing)
}

fn setup_text(
    alloc: Global,
    standing: &Result<(Settings, Marks), Refusal>,
) -> Result<String, AllocError> {
    match standing {
        Ok((settings, marks)) => {
            let teams = settings.teams().len();
            let start = milliseconds_of(marks.start);
            format!(in alloc; "teams {teams}, start {start}")
        }
        Err(refusal) => {
            let name = refusal.row().name;
            format!(in alloc; "{name}")
        }
    }
}

fn milliseconds_of(moment: Option<Moment>) -> u64 {
    match moment {
        Some(moment) => moment.milliseconds(),
        None => 0,
    }
}

/// Goes the steps of a walk: how many they are, and how many of them were answered as they say.
fn go(
    alloc: Global,
    report: &mut String,
    desk: &mut Desk<MemoryStore>,
    walk: &str,
) -> Result<(u32, u32), Fail> {
    let mut steps: u32 = 0;
    let mut met: u32 = 0;
    for step in walk.split("\n\n").skip(1) {
        let is_met = add_step(alloc, report, desk, step)?;
        steps = steps.saturating_add(1);
        met = met.saturating_add(u32::from(is_met));
    }
    Ok((steps, met))
}

/// Goes a step, and answers whether the replies are as it says. Where they aren't it is reported.
fn add_step(
    alloc: Global,
    report: &mut String,
    desk: &mut Desk<MemoryStore>,
    step: &str,
) -> Result<bool, Fail> {
    let given = given(alloc, desk, step)?;
    let is_met = is_wanted(alloc, step, &given)?;
    add_if_other(alloc, report, step, &given, is_met)?;
    Ok(is_met)
}

/// Whether these are the answers that a step must get.
fn is_wanted(alloc: Global, step: &str, given: &String) -> Result<bool, AllocError> {
    let wanted = wanted(alloc, step)?;
    Ok(*given == wanted)
}

/// Reports a step that was answered otherwise than it says.
fn add_if_other(
    alloc: Global,
    report: &mut String,
    step: &str,
    given: &String,
    is_met: bool,
) -> Result<(), AllocError> {
    if !is_met {
        let told = format!(in alloc; "answered otherwise:\n{step}\nbut\n{given}\n")?;
        report.push_str(told.as_str())?;
    }
    Ok(())
}

/// The answers that a step must get.
fn wanted(alloc: Global, step: &str) -> Result<String, AllocError> {
    let mut text = String::new(alloc);
    for line in step.lines() {
        if is_answer(line) {
            text.push_str(line)?;
            text.push('\n')?;
        }
    }
    Ok(text)
}

/// The answers that it gets, the last time where it is gone several times.
fn given(alloc: Global, desk: &mut Desk<MemoryStore>, step: &str) -> Result<String, Fail> {
    for _ in 1..number_after(step, "times: ").unwrap_or(1) {
        let _ = answers(alloc, desk, step)?;
    }
    answers(alloc, desk, step)
}

fn answers(alloc: Global, desk: &mut Desk<MemoryStore>, step: &str) -> Result<String, Fail> {
    let items = items_of(alloc, step)?;
    let answers = desk.run(alloc, items)?;
    let text = lines_of(alloc, &answers)?;
    Ok(text)
}

fn lines_of(alloc: Global, answers: &[Answer]) -> Result<String, AllocError> {
    let mut text = String::new(alloc);
    for answer in answers {
        add_line(alloc, &mut text, answer)?;
    }
    Ok(text)
}

fn add_line(alloc: Global, text: &mut String, answer: &Answer) -> Result<(), AllocError> {
    let line = line_of(alloc, answer)?;
    text.push_str(line.as_str())
}
