// Loads each table of standard input and prints what came back, of an accepted one also the words of its dag. A table stands behind its
// length, 4 bytes, the lowest first; there are at most 65,536 bytes in all.
#![tactic(auto)]

ghost use Rattle.std.specs.Prelude.{◌≤◌, length};

use job::dag::{DEFINITION_COUNT, DEFINITIONS_START, HEAD_WORDS, ROW_WORDS, WORDS};
use job::wide::wide;
use loader::table;
use std::io;
use streams::read_full;

// Words on a line, behind what they are.
fn words(rt: &impl Print, title: &str, words: &[u32]) -> io::Result<()> {
    print!(rt; "{title}")?;
    for &word in words {
        print!(rt; " {word}")?;
    }
    print!(rt; "\n")
}

// The words of the head: three, and two for each definition.
fn head(rt: &impl Print, dag: &[u32; WORDS]) -> io::Result<()> {
    let definitions = wide(dag[DEFINITION_COUNT]);
    if definitions <= 32 {
        words(rt, "head", &dag[..DEFINITIONS_START + 2 * definitions])?;
    }
    Ok(())
}

// The words of so many nodes.
fn rows(rt: &impl Print, dag: &[u32; WORDS], nodes: usize) -> io::Result<()> {
    for row in dag[HEAD_WORDS..].chunks_exact(ROW_WORDS).take(nodes) {
        words(rt, "node", row)?;
    }
    Ok(())
}

fn show(rt: &impl Print, table: &[u8], dag: &mut [u32; WORDS]) -> io::Result<()> {
    let answer = table::load(table, dag);
    match answer {
        Err(refused) => print!(rt; "refused {} {}\n", u8::from(refused.why), refused.entry),
        Ok(nodes) => {
            print!(rt; "dag {nodes}\n")?;
            if nodes <= 1022 {
                head(rt, dag)?;
                rows(rt, dag, nodes)?;
            }
            Ok(())
        }
    }
}

fn show_all(rt: &impl Print, input: &[u8]) -> io::Result<()> {
    let mut dag = [0u32; WORDS];
    let mut rest = input;
    while let [a, b, c, d, behind @ ..] = rest {
        let size = wide(u32::from_le_bytes([*a, *b, *c, *d]));
        if behind.len() < size {
            return print!(rt; "short\n");
        }
        let (table, others) = behind.split_at(size);
        show(rt, table, &mut dag)?;
        rest = others;
    }
    Ok(())
}

fn main(rt: HostRuntime) -> io::Result<()> {
    let mut input = [0u8; 65536];
    let n = read_full(&mut rt.stdin(), &mut input)?;
    show_all(&rt, &input[..n])
}
