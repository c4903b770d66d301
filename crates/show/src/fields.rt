// A record as lines. Of a record every field is shown that is not blank; of words that are no record's every one that is not 0. An error
// is one of a write that failed; what was printed before it stays.
ghost use Rattle.std.specs.Prelude.{◌<◌};

use coded::word_tests::is_record;
use model::record::Machine;
use record::layout::{
    BLANK_STATE, CALLED_STATE, DUE_STATE, EMPTY_SLOT, READY_STATE, VALUE_SLOT, WAITING_STATE,
};
use record::order::{CallOrder, Order, Queue, WaitOrder};
use record::token::SlotWords;
use record::{cell, count, order, token};
use row_rules::blank::{cell_is_blank, token_is_blank};
use sites::number::signed;
use std::io;

fn state(rt: &impl Print, kind: u32, at: u32) -> io::Result<()> {
    match kind {
        BLANK_STATE => print!(rt; " blank"),
        READY_STATE => print!(rt; " ready"),
        WAITING_STATE => print!(rt; " waiting {at}"),
        CALLED_STATE => print!(rt; " called {at}"),
        DUE_STATE => print!(rt; " due {at}"),
        _ => print!(rt; " frame"),
    }
}

fn held(rt: &impl Print, kind: u32, word: u32) -> io::Result<()> {
    if kind != 0 {
        let value = signed(word);
        print!(rt; " value {value}")?;
    }
    Ok(())
}

// A place behind what it is, unless it is nowhere.
fn place(rt: &impl Print, name: &str, word: u32) -> io::Result<()> {
    if word != 0 {
        let place = word - 1;
        print!(rt; " {name} {place}")?;
    }
    Ok(())
}

fn slot(rt: &impl Print, words: SlotWords, x: usize) -> io::Result<()> {
    match words.kind {
        EMPTY_SLOT => Ok(()),
        VALUE_SLOT => {
            let value = signed(words.number);
            print!(rt; " x{x} {value}")
        }
        _ => {
            let cell = words.number;
            print!(rt; " x{x} cell {cell}")
        }
    }
}

fn bindings(rt: &impl Print, w: &[u32; Machine::WORDS], p: usize) -> io::Result<()>
    requires { p < 64 }
{
    for x in 0..8 {
        slot(rt, token::bind(w, p, x), x)?;
    }
    Ok(())
}

fn show_token(rt: &impl Print, w: &[u32; Machine::WORDS], p: usize) -> io::Result<()>
    requires { p < 64 }
{
    print!(rt; "  token {p}")?;
    state(rt, token::state(w, p), token::state_number(w, p))?;
    let node = token::node(w, p);
    print!(rt; " node {node}")?;
    held(rt, token::value_kind(w, p), token::value(w, p))?;
    place(rt, "caller", token::caller(w, p))?;
    place(rt, "cell", token::cell(w, p))?;
    bindings(rt, w, p)?;
    print!(rt; "\n")
}

fn tokens(rt: &impl Print, w: &[u32; Machine::WORDS]) -> io::Result<()> {
    for p in 0..Machine::TOKENS {
        if !token_is_blank(w, p) {
            show_token(rt, w, p)?;
        }
    }
    Ok(())
}

fn show_cell(rt: &impl Print, w: &[u32; Machine::WORDS], c: usize) -> io::Result<()>
    requires { c < 32 }
{
    print!(rt; "  cell {c}")?;
    place(rt, "parent", cell::parent(w, c))?;
    held(rt, cell::value_kind(w, c), cell::value(w, c))?;
    print!(rt; "\n")
}

fn cells(rt: &impl Print, w: &[u32; Machine::WORDS]) -> io::Result<()> {
    for c in 0..Machine::CELLS {
        if !cell_is_blank(w, c) {
            show_cell(rt, w, c)?;
        }
    }
    Ok(())
}

// A word that counts, or with its index one behind those that is not 0.
fn name(rt: &impl Print, word: u32, i: usize, count: u32) -> io::Result<()> {
    if i < count as usize {
        print!(rt; " {word}")
    } else if word != 0 {
        print!(rt; " behind {i} {word}")
    } else {
        Ok(())
    }
}

// An order: how many names count, and the 64 words from its start on.
fn show_order<O: Order>(rt: &impl Print, w: &[u32; Machine::WORDS], title: &str) -> io::Result<()> {
    let count = order::count::<O>(w);
    print!(rt; "  {title} {count}:")?;
    for (i, &word) in w[O::START..O::START + Machine::TOKENS].iter().enumerate() {
        name(rt, word, i, count)?;
    }
    print!(rt; "\n")
}

fn orders(rt: &impl Print, w: &[u32; Machine::WORDS]) -> io::Result<()> {
    show_order::<Queue>(rt, w, "queue")?;
    show_order::<WaitOrder>(rt, w, "waits")?;
    show_order::<CallOrder>(rt, w, "timers")
}

fn counts(rt: &impl Print, w: &[u32; Machine::WORDS]) -> io::Result<()> {
    let calls = count::calls_made(w);
    let token = count::last_token(w);
    let cell = count::last_cell(w);
    let clock = count::clock(w);
    print!(rt; "  calls {calls} newtoken {token} newcell {cell} clock {clock}\n")
}

// Each word behind its index, unless it is 0.
fn words(rt: &impl Print, w: &[u32; Machine::WORDS]) -> io::Result<()> {
    print!(rt; "  words")?;
    for (i, &word) in w.iter().enumerate() {
        if word != 0 {
            print!(rt; " {i}:{word}")?;
        }
    }
    print!(rt; "\n")
}

pub fn record(rt: &impl Print, w: &[u32; Machine::WORDS]) -> io::Result<()> {
    if !is_record(w) {
        return words(rt, w);
    }
    tokens(rt, w)?;
    cells(rt, w)?;
    orders(rt, w)?;
    counts(rt, w)
}
