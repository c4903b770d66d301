// Calls that `bench/` times from Rust: a run in house order by the public calls of `loader` and `machine`, and a whole run.
#![tactic(auto)]

ghost use Rattle.std.specs.Prelude.{◌≡◌, length, replicate};
ghost use Rattle.job.specs.Read.{read_table};
ghost use Rattle.loader.specs.TableLoaded.{loaded_words};
ghost use Rattle.model.specs.Output.Orcrun.{orcrun};
ghost use Rattle.lines.specs.Shown.{shown};
ghost use Rattle.record.specs.LayoutDecoded.{machine_of};
ghost use Rattle.run.specs.Input.{dag_after};
ghost use Rattle.bench.specs.Timed.{answer_nodes, words_of_start, one_round, rounds_from};

use job::dag::{GOAL, WORDS};
use loader::table::load;
use machine::answer::answer;
use machine::start::start;
use machine::step::step;
use model::record::Machine;
use record::layout::QUEUE_LENGTH;
use run::orcrun::orcrun;

// How many tokens the queue has, of any words.
fn ready(words: &[u32; Machine::WORDS]) -> u32
    ensures { result ≡ (machine_of words.now).queued }
{
    words[QUEUE_LENGTH]
}

// The start on a dag, then so many calls at most: the step at place 0 or, with the queue empty, an answer of 7 to the next handle.
fn calls(words: &mut [u32; Machine::WORDS], dag: &[u32; WORDS], handles: &[u32], most: u32) -> u32
    ensures value { result ≡ (one_round dag.now handles.now most words.old).count }
    ensures words_after { words.new ≡ (one_round dag.now handles.now most words.old).words }
{
    start(words, dag);
    let mut at: usize = 0;
    for n in 0..most {
        if 0 < ready(words) {
            step(words, dag, 0);
        } else {
            if handles.len() <= at {
                return n;
            }
            answer(words, dag, handles[at], 7);
            at += 1;
        }
    }
    most
}

// Loads a table, and makes its first calls so many times. Answers how many calls were made the last time.
#[unsafe(no_mangle)]
pub extern "C" fn bench_calls(table: &[u8], handles: &[u32], most: u32, rounds: u32) -> u32
    ensures { result ≡ (rounds_from (loaded_words (read_table table.now) (replicate 12331 0)) handles.now most rounds
        (record { count = 0; words = replicate 1863 0 })).count }
{
    let mut dag = [0u32; WORDS];
    let _ = load(table, &mut dag);
    let mut words = [0u32; Machine::WORDS];
    let mut made = 0;
    for _ in 0..rounds {
        made = calls(&mut words, &dag, handles, most);
    }
    made
}

// Loads a table. Answers the number of its nodes, or 0.
#[unsafe(no_mangle)]
pub extern "C" fn bench_load(table: &[u8], dag: &mut [u32; WORDS]) -> usize
    ensures value { result ≡ answer_nodes (read_table table.now) }
    ensures dag_after { dag.new ≡ loaded_words (read_table table.now) dag.old }
{
    match load(table, dag) {
        Ok(nodes) => nodes,
        Err(_) => 0,
    }
}

// Loads a table, and starts a house run of it.
#[unsafe(no_mangle)]
pub extern "C" fn bench_start(
    table: &[u8],
    dag: &mut [u32; WORDS],
    words: &mut [u32; Machine::WORDS],
) -> usize
    ensures value { result ≡ answer_nodes (read_table table.now) }
    ensures dag_after { dag.new ≡ loaded_words (read_table table.now) dag.old }
    ensures words_after { words.new ≡ words_of_start (loaded_words (read_table table.now) dag.old) }
{
    let nodes = bench_load(table, dag);
    unchecked::start::start(words, dag[GOAL]);
    nodes
}

// A whole run, from the bytes of an input to the bytes of its lines.
#[unsafe(no_mangle)]
pub extern "C" fn bench_orcrun(input: &[u8], dag: &mut [u32; WORDS], output: &mut [u8]) -> usize
    ensures value { result ≡ length (orcrun input.now) }
    ensures dag_after { dag.new ≡ dag_after input.now dag.old }
    ensures output_after { output.new ≡ shown output.old 0 (orcrun input.now) }
{
    orcrun(input, 0, dag, output)
}
