//! What the words of the command line ask for.

use contest_types::Moment;

/// What is to be done with the file at a path.
#[derive(Clone, Copy)]
pub(crate) struct Task<'a> {
    pub(crate) path: &'a str,
    pub(crate) work: Work,
}

/// What is to be done with a file.
#[derive(Clone, Copy)]
pub(crate) enum Work {
    /// To open the contest in it, and to count its rows.
    Count,
    /// To open it, and to set the thaw.
    Thaw(Moment),
    /// To open it, and to go through calls of the store, which set the thaw to these in turn.
    Walk(Moment, Moment),
    /// To make the demo contest in it, with the first so many teams and problems.
    Demo(usize, usize),
}

/// What the words ask for, if they ask for something.
pub(crate) fn task_of(words: &[String]) -> Option<Task<'_>> {
    match words {
        [name, path] => Some(Task {
            path: path.as_str(),
            work: work_of_none(name.as_str())?,
        }),
        [name, path, time] => Some(Task {
            path: path.as_str(),
            work: work_of_one(name.as_str(), time.as_str())?,
        }),
        [name, path, first, second] => Some(Task {
            path: path.as_str(),
            work: work_of_two(name.as_str(), first.as_str(), second.as_str())?,
        }),
        _ => None,
    }
}

fn work_of_none(name: &str) -> Option<Work> {
    match name {
        "open" => Some(Work::Count),
        _ => None,
    }
}

fn work_of_one(name: &str, time: &str) -> Option<Work> {
    match name {
        "thaw" => Some(Work::Thaw(moment_of(time)?)),
        _ => None,
    }
}

fn work_of_two(name: &str, first: &str, second: &str) -> Option<Work> {
    match name {
        "walk" => Some(Work::Walk(moment_of(first)?, moment_of(second)?)),
        "demo" => Some(Work::Demo(number_of(first)?, number_of(second)?)),
        _ => None,
    }
}

fn number_of(text: &str) -> Option<usize> {
    match text.parse::<usize>() {
        Ok(number) => Some(number),
        Err(_) => None,
    }
}

fn moment_of(text: &str) -> Option<Moment> {
    match text.parse::<u64>() {
        Ok(milliseconds) => Moment::from_milliseconds(milliseconds),
        Err(_) => None,
    }
}
