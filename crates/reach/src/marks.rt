// Marks of both tables, over slices: what lends an array as a slice knows its length, also after the call.
ghost use Rattle.std.specs.Prelude.{◌≡◌, Bool, true, false, List, ◌+◌, ◌*◌, ◌≤◌, ◌<◌, length, replicate};
ghost use mir.Val.{bool_byte};
ghost use Rattle.model.specs.Machine.InUse.{tokens_used, used_cells};
ghost use Rattle.model.specs.declared.record.Machine.{Machine};
ghost use Rattle.record.specs.Holds.{Codes};
ghost use Rattle.reach.specs.Marks.{BlankFrom, UnmarkedFrom, weight, none_from, few_or_all, end_of_eight, marked_end};

use crate::mark::{mark_active, mark_held};
use model::record::Machine;

// Is no place from this one on marked? Every mark is read, so that many are read at once.
fn none_from(marks: &[bool], from: usize) -> bool
    requires { from ≤ length marks.now }
    ensures { result ≡ none_from marks.now from }
{
    !marks[from..]
        .iter()
        .fold(false, |found, &mark| found | mark)
}

// The few first places, where the others are not in use, or all of them.
pub fn few_or_all(marks: &[bool]) -> usize
    requires { 8 ≤ length marks.now }
    ensures upper_bound { (result ≤ length marks.now) × UnmarkedFrom marks.now result (length marks.now) }
    ensures value { result ≡ few_or_all marks.now }
{
    if none_from(marks, 8) {
        return 8;
    }
    marks.len()
}

// The first eight marks as a number of eight bytes: they are read at once.
fn first_eight(marks: &[bool]) -> u64
    requires { 8 ≤ length marks.now }
    ensures { result ≡ weight 8 marks.now }
{
    u64::from_le_bytes([
        marks[0] as u8,
        marks[1] as u8,
        marks[2] as u8,
        marks[3] as u8,
        marks[4] as u8,
        marks[5] as u8,
        marks[6] as u8,
        marks[7] as u8,
    ])
}

// Where eight marks end, or somewhat behind it, from that number.
fn end_of_eight(number: u64) -> usize
    ensures { result ≡ end_of_eight number }
{
    match number {
        0..256 => 1,
        256..65536 => 2,
        65536..16777216 => 3,
        16777216..4294967296 => 4,
        _ => 8,
    }
}

// The end of the places in use where they are few, or somewhat behind it; else that of all places. No place from it on is marked.
pub fn marked_end(marks: &[bool]) -> usize
    requires { 8 ≤ length marks.now }
    ensures upper_bound { (result ≤ length marks.now) × UnmarkedFrom marks.now result (length marks.now) }
    ensures value { result ≡ marked_end marks.now }
{
    let end = few_or_all(marks);
    if end == 8 {
        return end_of_eight(first_eight(marks));
    }
    end
}

// The tokens: the active ones, and what they reach by their callers. From the end on there is none.
pub fn mark_tokens(w: &[u32; Machine::WORDS], marks: &mut [bool], end: usize)
    requires { (length marks.old ≡ 64) × (end ≤ 64) }
    ensures { (m : Machine) → Codes w.now m → BlankFrom m end → marks.new ≡ tokens_used m }
{
    marks.fill(false);
    for p in 0..end {
        mark_active(w, p, marks);
    }
}

// The cells that these tokens reach.
pub fn mark_cells(w: &[u32; Machine::WORDS], tokens: &[bool], marks: &mut [bool], end: usize)
    requires { (length tokens.now ≡ 64) × (length marks.old ≡ 32) × (end ≤ 64) }
    ensures { (m : Machine) → Codes w.now m → BlankFrom m end
        → marks.new ≡ used_cells tokens.now m.tokens m.cells }
{
    marks.fill(false);
    for p in 0..end {
        mark_held(w, p, tokens[p], marks);
    }
}
