//! Long runs, whose records agree with the slow program of `amqp_resource_record` entry by entry.

ghost use Rattle.std.specs.Prelude.{◌<◌};

use crate::tests::run_over::{run_fresh, source_of};
use crate::*;
use amqp_below_layer::{Exchanges, LayerBelow, OpenSession};
use amqp_below_recorder::Recorder;
use amqp_below_streams::SureSink;
use amqp_resource_record::{Entry, Step, hands, is_entry_after};
use amqp_test_values::leak;
use amqp_txn_types::{Frame, Items, NoMemory, Text};
use std::alloc::{Alloc, Global};
use std::process::Abort;

/// The id of a number, in 32 digits.
fn id_word(alloc: Global, id: u32) -> Result<Text, NoMemory> {
    let word = format!(in alloc; "{id:032x}")?;
    Text::from_str(alloc, word.as_str())
}

/// The words of a run whose 64 declares draw the ids of the numbers below `ids`, again and again.
fn put_words(alloc: Global, words: &mut Items<Text>, ids: u32) -> Result<(), NoMemory> {
    words.append(Text::from_str(alloc, "run")?)?;
    for place in 0..64u32 {
        words.append(id_word(alloc, place % ids.max(1))?)?;
    }
    Ok(())
}

fn put_declare(lines: &mut String, link: u32) -> Result<(), NoMemory> {
    write!(lines, "control {link} 00537700533145\n")?;
    Ok(())
}

fn put_commit(lines: &mut String, link: u32, id: u32) -> Result<(), NoMemory> {
    write!(lines, "control {link} 005377005332c01301a010{id:032x}\n")?;
    Ok(())
}

fn put_rollback(lines: &mut String, link: u32, id: u32) -> Result<(), NoMemory> {
    write!(lines, "control {link} 005377005332c01402a010{id:032x}41\n")?;
    Ok(())
}

/// A post, of which every second is settled.
fn put_post(lines: &mut String, id: u32, number: u32) -> Result<(), NoMemory> {
    let settled = if number % 2 == 0 { "true" } else { "-" };
    write!(
        lines,
        "post {id:032x} 1 {number} {settled} - {number:08x}\n"
    )?;
    Ok(())
}

fn put_retirement(lines: &mut String, id: u32, number: u32) -> Result<(), NoMemory> {
    write!(
        lines,
        "retire {id:032x} receiver {number} - false released\n"
    )?;
    Ok(())
}

/// Whether these frames were taken from that place on.
fn are_taken(frames: &[Frame], taken: &Exchanges, from: usize) -> bool {
    let mut place = from;
    for frame in frames {
        let Some(exchange) = taken.get(place) else {
            return false;
        };
        if exchange.0 != *frame {
            return false;
        }
        place = place.saturating_add(1);
    }
    true
}

/// How many frames a step hands after the entries; none where others were taken from that place on.
fn handed_from(
    alloc: Global,
    before: &[Entry],
    step: &Step,
    taken: &Exchanges,
    from: usize,
) -> Result<Option<usize>, NoMemory> {
    let frames = hands(alloc, before, step)?;
    let count = frames.len();
    let same = are_taken(frames.as_slice(), taken, from);
    leak(frames);
    Ok(if same { Some(count) } else { None })
}

/// The place of the first entry that isn't, or didn't hand, what the slow program says after the
/// entries before it; where there is none, the number of entries, or 0 where more was taken.
fn agreed(alloc: Global, entries: &[Entry], taken: &Exchanges) -> Result<usize, NoMemory> {
    let mut count = 0usize;
    for (place, entry) in entries.iter().enumerate() {
        let before = &entries[..place];
        if !is_entry_after(before, entry) {
            return Ok(place);
        }
        let Some(more) = handed_from(alloc, before, &entry.step, taken, count)? else {
            return Ok(place);
        };
        count = count.saturating_add(more);
    }
    if taken.len() != count {
        return Ok(0);
    }
    Ok(entries.len())
}

/// How many entries of a run's record agree with the slow program.
fn agreed_in<S: LayerBelow>(alloc: Global, ran: &Ran<S>) -> Result<usize, NoMemory> {
    match &ran.driven {
        Some(driven) => agreed(alloc, driven.entries.as_slice(), ran.below.exchanges()),
        None => Ok(0),
    }
}

fn entry_count<S>(ran: &Ran<S>) -> usize {
    match &ran.driven {
        Some(driven) => driven.entries.len(),
        None => 0,
    }
}

/// The status of a run, the number of its entries, how many of them agree with the slow program,
/// and how many frames were taken.
fn facts_of_run<S: LayerBelow + Send>(
    rt: &(impl Abort + Alloc<A = Global>),
    below: S,
    words: &[Text],
    lines: &str,
) -> (u8, usize, usize, usize) {
    let mut source = source_of(rt, lines);
    let mut sink = SureSink::new(rt.alloc());
    let below = Recorder::new(rt.alloc(), below);
    let ran = run_fresh(rt, words, below, &mut source, &mut sink);
    leak(source);
    leak(sink);
    let status = ran.status;
    let count = entry_count(&ran);
    let taken = ran.below.exchanges().len();
    let agreed = agreed_in(rt.alloc(), &ran).expect(rt, "an Ok");
    leak(ran);
    (status, count, agreed, taken)
}

/// Runs the lines to their end, and compares the record with the slow program.
fn assert_long_run(
    rt: &(impl Abort + Alloc<A = Global>),
    ids: u32,
    lines: &str,
    count: usize,
    taken: usize,
) {
    let mut words = Items::new(rt.alloc());
    put_words(rt.alloc(), &mut words, ids).expect(rt, "an Ok");
    let below = OpenSession::new(rt.alloc());
    let facts = facts_of_run(rt, below, words.as_slice(), lines);
    leak(words);
    let (status, entries, agreed, frames) = facts;
    assert!(rt; status == 0);
    assert!(rt; entries == count);
    assert!(rt; agreed == count);
    assert!(rt; frames == taken);
}

/// One round of eight transactions, each on another link than in the round before: their posts
/// interleave, and a wrong link asks for their commits in vain.
fn put_round(lines: &mut String, round: u32) -> Result<(), NoMemory>
    requires { round < 8 }
{
    for id in 0..8u32 {
        put_declare(lines, (id + round) % 8)?;
    }
    for number in 0..4u32 {
        for id in 0..8u32 {
            put_post(lines, id, 32 * round + 8 * number + id)?;
        }
    }
    for id in 0..8u32 {
        put_commit(lines, (id + round + 1) % 8, id)?;
    }
    Ok(())
}

/// The ends of a round's transactions, in an order of the round's own, every third a rollback.
fn put_ends(lines: &mut String, round: u32) -> Result<(), NoMemory>
    requires { round < 8 }
{
    for place in 0..8u32 {
        let id = (3 * place + round) % 8;
        if (id + round) % 3 == 0 {
            put_rollback(lines, (id + round) % 8, id)?;
        } else {
            put_commit(lines, (id + round) % 8, id)?;
        }
    }
    Ok(())
}

/// Eight rounds on eight links.
fn put_interleaved(lines: &mut String) -> Result<(), NoMemory> {
    for link in 0..8u32 {
        write!(lines, "attach c{link} {link}\n")?;
    }
    for round in 0..8u32 {
        put_round(lines, round)?;
        put_ends(lines, round)?;
    }
    Ok(())
}

#[test]
fn interleaved_transactions_agree_with_the_slow_program(rt: HostRuntime) {
    let mut lines = String::new(rt.alloc());
    put_interleaved(&mut lines).expect(&rt, "an Ok");
    // Of the 64 transactions 21 are rolled back; the others hand four frames each.
    assert_long_run(&rt, 8, lines.as_str(), 456, 172);
    leak(lines);
}

/// Two new links, and two transactions on each.
fn put_links(lines: &mut String, round: u32, first: u32) -> Result<(), NoMemory>
    requires { first < 32 }
{
    write!(lines, "attach a{round} 0\nattach b{round} 1\n")?;
    for link in [first, first, first + 1, first + 1] {
        put_declare(lines, link)?;
    }
    Ok(())
}

/// The posts and retirements of a round's four transactions, and two plain frames.
fn put_work(lines: &mut String, round: u32) -> Result<(), NoMemory>
    requires { round < 16 }
{
    for number in 0..3u32 {
        for id in 0..4u32 {
            put_post(lines, id, 12 * round + 4 * number + id)?;
        }
    }
    for id in 0..4u32 {
        put_retirement(lines, id, id)?;
    }
    lines.push_str("flow 1 200\ntransfer 1 - - 61\n")?;
    Ok(())
}

/// The end of the first link, by itself or for an outside payload, one commit, and the end of the
/// second.
fn put_link_ends(lines: &mut String, round: u32, first: u32) -> Result<(), NoMemory>
    requires { first < 32 }
{
    let second = first + 1;
    if round % 2 == 0 {
        write!(lines, "link-end {first}\n")?;
    } else {
        write!(lines, "control {first} 00\n")?;
    }
    put_commit(lines, first, 0)?;
    put_commit(lines, second, 0)?;
    put_commit(lines, second, 2)?;
    write!(lines, "link-end {second}\nlink-end {second}\n")?;
    Ok(())
}

/// Sixteen rounds of two new links and four transactions with posts and retirements, of which one
/// is
/// committed. The first link ends with its two transactions, and the second with the one that is
/// left.
fn put_ending(lines: &mut String) -> Result<(), NoMemory> {
    for round in 0..16u32 {
        put_links(lines, round, 2 * round)?;
        put_work(lines, round)?;
        put_link_ends(lines, round, 2 * round)?;
    }
    Ok(())
}

#[test]
fn link_ends_agree_with_the_slow_program(rt: HostRuntime) {
    let mut lines = String::new(rt.alloc());
    put_ending(&mut lines).expect(&rt, "an Ok");
    // In each round a flow, a transfer and the four frames of the one commit.
    assert_long_run(&rt, 4, lines.as_str(), 480, 96);
    leak(lines);
}

/// 64 links with a transaction each, whose 1,536 posts interleave.
fn put_many(lines: &mut String) -> Result<(), NoMemory> {
    for link in 0..64u32 {
        write!(lines, "attach c{link} {link}\n")?;
        put_declare(lines, link)?;
    }
    for number in 0..24u32 {
        for id in 0..64u32 {
            put_post(lines, id, 64 * number + id)?;
        }
    }
    Ok(())
}

/// A half of the transactions are committed, a quarter rolled back, and a quarter end with their
/// links.
fn put_many_ends(lines: &mut String) -> Result<(), NoMemory> {
    for id in 0..64u32 {
        match id % 4 {
            0 => write!(lines, "link-end {id}\n")?,
            1 => put_rollback(lines, id, id)?,
            _ => put_commit(lines, id, id)?,
        }
    }
    Ok(())
}

/// The last id comes again 100 times.
fn put_last_again(lines: &mut String) -> Result<(), NoMemory> {
    for number in 0..100u32 {
        let link = 4 * (number % 16) + 1;
        put_declare(lines, link)?;
        put_post(lines, 63, number)?;
        put_commit(lines, link, 63)?;
    }
    Ok(())
}

fn put_thousands(lines: &mut String) -> Result<(), NoMemory> {
    put_many(lines)?;
    put_many_ends(lines)?;
    put_last_again(lines)
}

#[test]
fn thousands_of_steps_agree_with_the_slow_program(rt: HostRuntime) {
    let mut lines = String::new(rt.alloc());
    put_thousands(&mut lines).expect(&rt, "an Ok");
    // 32 commits of 24 posts, and 100 of one.
    assert_long_run(&rt, 64, lines.as_str(), 2_028, 868);
    leak(lines);
}
