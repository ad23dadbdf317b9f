// Worst-case response times on one node.
use crate::releases::{Source, least_window};
use std::alloc::{AllocError, Global};
use std::fmt;

const BUSY_LIMIT: u64 = 1_000_000;

const COMPLETION_LIMIT: u64 = 4_000_000;

const JITTER_LIMIT: u64 = 2_000_000;

// How a node shares its time.
#[derive(Clone, Copy, PartialEq, Debug)]
pub enum Letter {
    E,
    P,
}

impl fmt::Display for Letter {
    fn fmt<W: fmt::Write>(&self, f: &mut fmt::Formatter<W>) -> fmt::Result {
        match self {
            Letter::E => write!(f, "E"),
            Letter::P => write!(f, "P"),
        }
    }
}

// A row as its node sees it, at its release jitter.
#[derive(Clone, Copy)]
pub struct Load {
    pub period: u64,
    pub cost: u64,
    pub local: u64,
    pub blocking: u64,
    pub priority: u64,
    pub jitter: u64,
}

impl Load {
    fn source(&self) -> Source {
        Source::new(self.period, self.cost, self.local, self.jitter)
    }
}

// The releases of those rows that have at least this priority.
fn sources_from(alloc: Global, loads: &[Load], priority: u64) -> Result<Vec<Source>, AllocError> {
    loads
        .iter()
        .filter(|load| load.priority >= priority)
        .map(|load| load.source())
        .collect(alloc)
}

// Whether every release jitter is one that a node rule takes.
// `asked` and `others` stay two parameters: a struct of both would be made in one place, and be taken apart in each.
fn jitters_fit(asked: &Load, others: &[Load]) -> bool {
    asked.jitter <= JITTER_LIMIT && others.iter().all(|load| load.jitter <= JITTER_LIMIT)
}

// The node's busy period: every row of the node counts.
fn busy_period(alloc: Global, asked: &Load, others: &[Load]) -> Result<Option<u64>, AllocError> {
    let mut sources = sources_from(alloc, others, 0)?;
    sources.push(asked.source())?;
    Ok(least_window(0, sources.as_mut_slice(), None, BUSY_LIMIT))
}

// Fixed priorities: each job of the row that starts inside the busy period, behind the jobs of its rivals.
fn fixed_priority(asked: &Load, rivals: &mut [Source], busy: u64) -> Option<u64> {
    let mut worst: u64 = 0;
    let mut start: u64 = 0;
    let mut own = asked.blocking;
    // a walk over the row's own releases and no division, to stay unlike the first analyser;
    // no fold: own work grows from job to job beside the worst, and what is carried along would be no plainer
    for _ in 0..busy {
        if start >= busy {
            break;
        }
        own = own.saturating_add(asked.cost);
        let done = least_window(own, rivals, None, COMPLETION_LIMIT)?;
        worst = worst.max(asked.jitter.saturating_add(done).saturating_sub(start));
        start = start.saturating_add(asked.period);
    }
    Some(worst)
}

// Earliest deadline: a job of the row released at each instant of the busy period, with the row's own earlier jobs a
// period apart before it, behind the jobs of its rivals that are due no later than it.
fn earliest_deadline(asked: &Load, rivals: &mut [Source], busy: u64) -> Option<u64> {
    let mut worst: u64 = 0;
    let mut own = asked.blocking;
    let mut one_more_at: u64 = 0;
    // no fold: it would carry all three numbers from instant to instant
    for release in 0..busy {
        if release == one_more_at {
            own = own.saturating_add(asked.cost);
            one_more_at = release.saturating_add(asked.period);
        }
        let due = release.saturating_add(asked.local);
        let done = least_window(own, rivals, Some(due), COMPLETION_LIMIT)?;
        worst = worst.max(asked.jitter.saturating_add(done).saturating_sub(release));
    }
    Some(worst)
}

// The worst-case response time of a row among the other rows of its node. None is over.
pub fn response_time(
    alloc: Global,
    letter: Letter,
    asked: &Load,
    others: &[Load],
) -> Result<Option<u64>, AllocError> {
    if !jitters_fit(asked, others) {
        return Ok(None);
    }
    let Some(busy) = busy_period(alloc, asked, others)? else {
        return Ok(None);
    };
    match letter {
        Letter::E => {
            let mut rivals = sources_from(alloc, others, 0)?;
            Ok(earliest_deadline(asked, rivals.as_mut_slice(), busy))
        }
        Letter::P => {
            let mut rivals = sources_from(alloc, others, asked.priority)?;
            Ok(fixed_priority(asked, rivals.as_mut_slice(), busy))
        }
    }
}
