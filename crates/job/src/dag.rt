// The words of a dag: a head (number of nodes, number of definitions, the goal's root, root and formals of each definition),
// then a row for each node (kind, two numbers, a third number, and kind and word of four parameters).

ghost use Rattle.std.specs.Prelude.{◌≡◌, length, drop};
ghost use Rattle.job.specs.Rows.{words_in_rows};
ghost use Rattle.job.specs.DagKinds.{kind_of};

pub const WORDS: usize = 12331;

// The words of the head: how many nodes and definitions there are, the goal's first node, and where the definitions begin, each with its
// first node and its count of formals.
pub const NODE_COUNT: usize = 0;

pub const DEFINITION_COUNT: usize = 1;

pub const GOAL: usize = 2;

pub const DEFINITIONS_START: usize = 3;

// Where the nodes' rows begin, and how many words each has.
pub const HEAD_WORDS: usize = 67;

pub const ROW_WORDS: usize = 12;

// The words of a row, behind the node's kind. First the site, definition or variable that the node names, or the left node; then the next
// node, or the right node; then how many parameters there are, or the variable that where binds; then the parameters, each with its kind
// and its word.
pub const NAMED_NUMBER: usize = 1;

pub const LEFT_NODE: usize = 1;

pub const NEXT_NODE: usize = 2;

pub const RIGHT_NODE: usize = 2;

pub const PARAMETER_COUNT: usize = 3;

pub const BINDER: usize = 3;

pub const PARAMETER_KIND: usize = 4;

pub const PARAMETER_WORD: usize = 5;

// The rows of the nodes, those that the dag does not use too.
pub fn rows(dag: &[u32; WORDS]) -> &[[u32; ROW_WORDS]]
    ensures rows { result.now ≡ words_in_rows 12 1022 (drop 67 dag.now) }
    ensures count { length result.now ≡ 1022 }
{
    dag[HEAD_WORDS..].as_chunks().0
}

// The words of the kinds of nodes, in the order of `node_words`.
pub const STOP: u32 = 0;

pub const SITE: u32 = 1;

pub const CALL: u32 = 2;

pub const FORK: u32 = 3;

pub const ASSIGN: u32 = 4;

pub const REMOVE: u32 = 5;

pub const WHERE: u32 = 6;

pub const CHOKE: u32 = 7;

pub const RETURN: u32 = 8;

pub const PUBLISH: u32 = 9;

// The kinds of nodes.
#[derive(Clone, Copy)]
pub enum NodeKind {
    Stop,
    Site,
    Call,
    Fork,
    Assign,
    Remove,
    Where,
    Choke,
    Return,
    Publish,
}

impl NodeKind {
    // The kind that has this word.
    pub fn from_word(word: u32) -> Option<NodeKind>
        ensures { result ≡ kind_of word }
    {
        match word {
            STOP => Some(NodeKind::Stop),
            SITE => Some(NodeKind::Site),
            CALL => Some(NodeKind::Call),
            FORK => Some(NodeKind::Fork),
            ASSIGN => Some(NodeKind::Assign),
            REMOVE => Some(NodeKind::Remove),
            WHERE => Some(NodeKind::Where),
            CHOKE => Some(NodeKind::Choke),
            RETURN => Some(NodeKind::Return),
            PUBLISH => Some(NodeKind::Publish),
            _ => None,
        }
    }
}

// The kinds of parameters.
pub const VARIABLE: u32 = 7;

pub const CONSTANT: u32 = 8;

// "after 1,000,000 such calls"
pub const CALL_LIMIT: u32 = 1000000;
