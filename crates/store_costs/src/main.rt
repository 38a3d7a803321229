// Does one thing to a store many times over, so that what it costs can be counted from outside.
#![tactic(auto)]

use anyhow::anyhow;
use record_store::{Journal, Place, Pool, Store};
use samples::FIVE_MINUTES;
use std::env;

// Takes a step `times` times with the slots of an hour in turn; the answer is how often it was not refused.
fn work<S: Store, F: FnMut(&mut S, u8) -> bool>(store: &mut S, times: u16, mut step: F) -> usize
    requires { F.IsAlwaysCallable step }
{
    let mut done: usize = 0;
    for turn in 0..times {
        if step(store, (turn % 24) as u8) {
            done = done.saturating_add(1);
        }
    }
    done
}

// What a word asks to be done.
fn run_task<S: Store>(store: &mut S, what: &str, times: u16) -> usize {
    match what {
        "read" => work(store, times, |store, slot| store.read(3, slot).is_none()),
        "write" => work(store, times, |store, slot| {
            store.write(3, slot, &FIVE_MINUTES).is_ok()
        }),
        _ => work(store, times, |store, slot| {
            store.write(3, slot, &FIVE_MINUTES).is_ok() && store.take(3, slot).is_ok()
        }),
    }
}

fn main(rt: HostRuntime) -> anyhow::Result<()> {
    let mut words = env::args(&rt)?;
    let _ = words.next();
    let (Some(kind), Some(places), Some(what), Some(times)) = (
        words.next(),
        words.next(),
        words.next(),
        words.next(),
    ) else {
        return Err(anyhow!("wanted: pool or journal, places, read, write or take, times"));
    };
    let count = usize::from(places.as_str().parse::<u16>()?);
    let times = times.as_str().parse::<u16>()?;
    let what = what.as_str();
    // A kind of store borrows its memory, so that each is made where it is used.
    let done = if kind.as_str() == "pool" {
        let mut places = Vec::from_elem(rt.alloc(), Place::default(), count)?;
        run_task(&mut Pool::over(places.as_mut_slice()), what, times)
    } else {
        let mut places = Vec::from_elem(rt.alloc(), Place::default(), count)?;
        run_task(&mut Journal::over(places.as_mut_slice()), what, times)
    };
    rt.println(done)?;
    Ok(())
}
