// The jobs of a row as a list of release instants, and windows scanned from release to release.
//
// Job k of a row (k from 0) is released at k × period − release jitter, and at instant 0 where that lies before it:
// the jobs that the jitter held back fall together there. A job counts for a window of w ticks if it is released
// before instant w, and, where deadlines matter, if its release plus its local deadline is no later than `due`.

// One row's releases, with the place up to which a scan has counted them.
#[derive(Clone, Copy)]
pub struct Source {
    cost: u64,
    period: u64,
    local: u64,
    // the jobs released at instant 0
    together: u64,
    // the instant of the first job after them
    later: u64,
    // the instant of the next job that counts and is not yet counted
    next: u64,
}

// The instant of a job that does not count. No scan comes there.
// A number and no `Option<u64>`: with that the scans, and so the whole comparison, took nearly twice as long.
const NEVER: u64 = u64::MAX;

impl Source {
    // The jobs of a row of this period, cost, local deadline and release jitter.
    pub fn new(period: u64, cost: u64, local: u64, jitter: u64) -> Source {
        let mut together: u64 = 0;
        let mut nominal: u64 = 0;
        // a walk over the releases and no division, to stay unlike the first analyser; `step_by` visits every tick
        for _ in 0..=jitter {
            if nominal > jitter {
                break;
            }
            together = together.saturating_add(1);
            nominal = nominal.saturating_add(period);
        }
        Source {
            cost,
            period,
            local,
            together,
            later: nominal.saturating_sub(jitter),
            next: NEVER,
        }
    }

    // The instant of a release, if the job is due in time. If not, neither is any later job of the row.
    fn if_due(&self, instant: u64, due: u64) -> u64 {
        if instant.saturating_add(self.local) <= due {
            instant
        } else {
            NEVER
        }
    }
}

// Jobs that come at one instant: their work, and the instant at which the next jobs that count come.
#[derive(Clone, Copy)]
struct Batch {
    work: u64,
    next: u64,
}

// Starts a scan: the jobs released at instant 0.
fn first_batch(sources: &mut [Source], due: u64) -> Batch {
    let mut work: u64 = 0;
    let mut next = NEVER;
    // one walk, no chains: it changes the sources and gathers two numbers, and a chain would hide that
    for source in sources {
        source.next = source.if_due(source.later, due);
        next = next.min(source.next);
        if source.local <= due {
            work = work.saturating_add(source.together.saturating_mul(source.cost));
        }
    }
    Batch { work, next }
}

// Goes on with a scan: the jobs released at this later instant.
fn batch_at(sources: &mut [Source], instant: u64, due: u64) -> Batch {
    let mut work: u64 = 0;
    let mut next = NEVER;
    // one walk, as in `first_batch`
    for source in sources {
        if source.next == instant {
            work = work.saturating_add(source.cost);
            source.next = source.if_due(instant.saturating_add(source.period), due);
        }
        next = next.min(source.next);
    }
    Batch { work, next }
}

// The least window of at least one tick that equals the work in it: the row's own work and that of the jobs that count.
// With no `due` every job does. None if there is no window up to the limit.
pub fn least_window(own: u64, sources: &mut [Source], due: Option<u64>, limit: u64) -> Option<u64> {
    // every instant is due by the last of all
    let due = due.unwrap_or(u64::MAX);
    let first = first_batch(sources, due);
    let mut work = own.saturating_add(first.work);
    let mut next = first.next;
    let mut window: u64 = 1;
    // no chain: three numbers go on from release to release, and the scan ends in three ways
    for _ in 0..limit {
        // from this tick to the next release the work stays the same
        if work >= window && work <= next {
            return (work <= limit).then_some(work);
        }
        if next >= limit {
            return None;
        }
        let batch = batch_at(sources, next, due);
        work = work.saturating_add(batch.work);
        window = next.saturating_add(1);
        next = batch.next;
    }
    None
}
