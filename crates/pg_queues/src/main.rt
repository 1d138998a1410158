//! Measures how many messages go through one lane, and through two queues of the kit beside it.
//!
//!     pg_queues lane|rtrb|crossbeam CAPACITY MESSAGES
//!
//! sends so many messages from one thread to another through a queue of this capacity, and then as many on one thread,
//! which fills the queue and empties it in turn. It prints how many came in order each time, and on standard error the
//! milliseconds.
#![tactic(auto)]

mod arrays;
mod jobs;
mod lanes;
mod rings;

use jobs::{Job, Kind};
use std::io::ErrorKind;
use std::time::Instant;
use std::{env, io};

fn main(rt: HostRuntime) -> io::Result<()> {
    let mut words = Vec::new(rt.alloc());
    for word in env::args(&rt)?.skip(1) {
        words.push(word)?;
    }
    let Some(job) = Job::of_words(&words) else {
        return Err(io::Error::new(
            ErrorKind::InvalidInput,
            "the words are lane|rtrb|crossbeam CAPACITY MESSAGES",
        ));
    };
    let alloc = rt.alloc();
    let (capacity, messages) = (job.capacity, job.messages);
    let start = Instant::now(&rt)?;
    let crossed = match job.kind {
        Kind::Lane => lanes::cross(&rt, alloc, capacity, messages),
        Kind::Ring => rings::cross(&rt, alloc, capacity, messages),
        Kind::Array => arrays::cross(&rt, alloc, capacity, messages),
    };
    let two = start.elapsed(&rt)?;
    let start = Instant::now(&rt)?;
    let turned = match job.kind {
        Kind::Lane => lanes::turn(&rt, alloc, capacity, messages),
        Kind::Ring => rings::turn(&rt, alloc, capacity, messages),
        Kind::Array => arrays::turn(&rt, alloc, capacity, messages),
    };
    let one = start.elapsed(&rt)?;
    let (Ok(crossed), Ok(turned)) = (crossed, turned) else {
        return Err(ErrorKind::OutOfMemory.into());
    };
    println!(rt; "{crossed} and {turned} in order")?;
    eprintln!(rt;
        "{} ms between two threads, {} ms on one",
        two.as_millis(),
        one.as_millis()
    )
}
