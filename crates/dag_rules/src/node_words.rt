// The index rules of one node of a dag: of its row of twelve words.
ghost use Rattle.std.specs.Prelude.{◌≡◌, drop};
ghost use Rattle.job.specs.DagKinds.{word_of_kind};
ghost use Rattle.dag_rules.specs.NodeWords.{pair_holds, param_words_hold, head_holds, count_of, row_holds};

use job::bounds::{PARAMETER_LIMIT, SCOPE_LIMIT};
use job::dag::{
    CONSTANT, NAMED_NUMBER, NEXT_NODE, NodeKind, PARAMETER_COUNT, PARAMETER_KIND, ROW_WORDS,
    VARIABLE,
};
use job::site_parameters::takes;
use job::wide::wide;

// Two words at a parameter's place: those of a parameter if the node has one there, else 0.
fn pair_holds(named: bool, kind: u32, word: u32) -> bool
    ensures { result ≡ pair_holds named kind word }
{
    if named {
        return ((kind == VARIABLE) & (word < SCOPE_LIMIT)) | (kind == CONSTANT);
    }
    (kind == 0) & (word == 0)
}

// The eight words of the parameters, `count` of which the node has.
fn params_hold(row: &[u32; ROW_WORDS], count: u32) -> bool
    ensures { result ≡ param_words_hold 4 count (drop 4 row.now) }
{
    let (params, _) = row[PARAMETER_KIND..].as_chunks::<2>();
    let mut ok = true;
    for (i, param) in params.iter().enumerate() {
        ok &= pair_holds(i < wide(count), param[0], param[1]);
    }
    ok
}

// How many parameters a node has, by its kind and its third number.
fn count_of(kind: NodeKind, c: u32) -> u32
    ensures { result ≡ count_of (word_of_kind kind) c }
{
    match kind {
        NodeKind::Site | NodeKind::Call => c,
        _ => 0,
    }
}

// The kind and the three numbers, in a dag with so many nodes and bodies.
fn head_holds(nodes: u32, bodies: u32, kind: NodeKind, a: u32, b: u32, c: u32) -> bool
    ensures { result ≡ head_holds nodes bodies (word_of_kind kind) a b c }
{
    let unused = (a == 0) & (b == 0) & (c == 0);
    let slot = (a < SCOPE_LIMIT) & (b < nodes) & (c == 0);
    match kind {
        NodeKind::Stop => unused,
        NodeKind::Site => takes(a, c) & (b < nodes),
        NodeKind::Call => (a < bodies) & (c <= PARAMETER_LIMIT) & (b < nodes),
        NodeKind::Fork => (a < nodes) & (b < nodes) & (c == 0),
        NodeKind::Assign => slot,
        NodeKind::Remove => slot,
        NodeKind::Where => (c < SCOPE_LIMIT) & (a < nodes) & (b < nodes),
        NodeKind::Choke => unused,
        NodeKind::Return => unused,
        NodeKind::Publish => unused,
    }
}

// The twelve words of a node.
pub(crate) fn row_holds(row: &[u32; ROW_WORDS], nodes: u32, bodies: u32) -> bool
    ensures { result ≡ row_holds nodes bodies row.now }
{
    let Some(kind) = NodeKind::from_word(row[0]) else {
        return false;
    };
    let c = row[PARAMETER_COUNT];
    let head = head_holds(nodes, bodies, kind, row[NAMED_NUMBER], row[NEXT_NODE], c);
    head & params_hold(row, count_of(kind, c))
}
