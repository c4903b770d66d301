// Hands the words of standard input, a dag's and a record's, to start, step, answer and advance, and prints each reply and the record after
// it. A case stands behind its length, 4 bytes, the lowest first; it is a name behind its length, 1 byte, and rows, done in their order.
#![tactic(auto)]

mod row;

use crate::row::{Call, Row, read_row};
use console::reply_line::reply;
use job::dag::WORDS;
use job::wide::wide;
use machine::advance::advance;
use machine::answer::answer;
use machine::start::start;
use machine::step::step;
use model::record::Machine;
use model::reply::Report;
use show::fields::record;
use std::io;
use std::io::Read;
use streams::read_full;

// `main` is shown to end, so it reads no more cases than this.
const MOST_CASES: usize = 65536;

// An index that the words do not have is passed over.
fn put_word(words: &mut [u32], index: usize, word: u32) {
    if let Some(slot) = words.get_mut(index) {
        *slot = word;
    }
}

fn reported(
    rt: &impl Print,
    w: &mut [u32; Machine::WORDS],
    dag: &[u32; WORDS],
    call: Call,
) -> io::Result<Report> {
    match call {
        Call::Start => {
            print!(rt; "start: ")?;
            Ok(start(w, dag))
        }
        Call::Step(place) => {
            print!(rt; "step {place}: ")?;
            Ok(step(w, dag, wide(place)))
        }
        Call::Answer(handle, value) => {
            print!(rt; "answer {handle} {value}: ")?;
            Ok(answer(w, dag, handle, value))
        }
        Call::Advance(time) => {
            print!(rt; "advance {time}: ")?;
            Ok(advance(w, dag, time))
        }
    }
}

// Makes a row's call.
fn called(
    rt: &impl Print,
    name: &[u8],
    w: &mut [u32; Machine::WORDS],
    dag: &[u32; WORDS],
    call: Call,
) -> io::Result<()> {
    rt.write_all(name)?;
    print!(rt; ", ")?;
    let report = reported(rt, w, dag, call)?;
    let values = report.values;
    reply(rt, report.reply, values)?;
    record(rt, w)
}

fn run(rt: &impl Print, case: &[u8]) -> io::Result<()> {
    let Some((&length, behind)) = case.split_first() else {
        return Ok(());
    };
    let length = usize::from(length);
    if behind.len() < length {
        return Ok(());
    }
    let (name, rows) = behind.split_at(length);
    let mut dag = [0u32; WORDS];
    let mut w = [0u32; Machine::WORDS];
    for row in rows.chunks_exact(8) {
        match read_row(row) {
            Row::Dag(index, word) => put_word(&mut dag, index, word),
            Row::Record(index, word) => put_word(&mut w, index, word),
            Row::Call(call) => called(rt, name, &mut w, &dag, call)?,
        }
    }
    Ok(())
}

// Reads a case and runs it; no more is there, or it is too long, where the answer is false.
fn next<R: Read>(rt: &impl Print, reader: &mut R, space: &mut [u8]) -> io::Result<bool> {
    let mut head = [0u8; 4];
    if read_full(reader, &mut head)? < 4 {
        return Ok(false);
    }
    let size = wide(u32::from_le_bytes(head));
    if space.len() < size {
        return Ok(false);
    }
    let case = &mut space[..size];
    if read_full(reader, case)? < size {
        return Ok(false);
    }
    run(rt, case)?;
    Ok(true)
}

fn main(rt: HostRuntime) -> io::Result<()> {
    let mut reader = rt.stdin();
    let mut space = [0u8; 65536];
    for _ in 0..MOST_CASES {
        if !next(&rt, &mut reader, &mut space)? {
            break;
        }
    }
    Ok(())
}
