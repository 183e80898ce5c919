// 01's table of kinds: how many ops each has, and what its fields hold.
#![tactic(auto)]

ghost use Rattle.std.specs.Prelude.{◌≡◌};
ghost use Rattle.kinds.specs.Kinds.{is_within, is_of, row as row_with, row_of};

// Kinds stay numbers, here and in the crates above: the image has them so, and 01 names the form, in which the records' check and the dispatch match on the kind's number, with ranges.

// The kinds that a reference may go to.
#[derive(Clone, Copy, Debug, PartialEq, Eq)]
pub enum Class {
    Expression,
    Component,
    Arm,
    Entry,
    Scope,
    Condition,
    Target,
}

// What a field holds.
#[derive(Clone, Copy, Debug, PartialEq, Eq)]
pub enum Role {
    // nothing: it is 0
    Unlisted,
    // a name, a label or an index: any number
    Number,
    // a literal
    Literal,
    // a literal of kind 6
    Text,
    // a function
    Function,
    // a node: whether it is needed, or may be 0; whether it heads a chain; its class (by place and not by name: the constants
    // below name what they stand for, and are the only ones that are made)
    Node(bool, bool, Class),
}

pub fn is_expression(kind: u8) -> bool
    ensures { result ≡ is_within 1 16 kind }
{
    matches!(kind, 1..=16)
}

fn is_target(kind: u8) -> bool
    ensures { result ≡ is_within 21 23 kind }
{
    matches!(kind, 21..=23)
}

// The kinds of target that have a target before them: a field and an index.
pub fn is_part(kind: u8) -> bool
    ensures { result ≡ is_within 22 23 kind }
{
    matches!(kind, 22..=23)
}

pub fn is_of(class: Class, kind: u8) -> bool
    ensures { result ≡ is_of class kind }
{
    match class {
        Class::Expression => is_expression(kind),
        Class::Component => kind == 17 || is_expression(kind),
        Class::Arm => kind == 18,
        Class::Entry => kind == 19,
        Class::Scope => kind == 1,
        Class::Condition => kind == 20 || is_expression(kind),
        Class::Target => is_target(kind),
    }
}

// A line of the table: how many ops the kind has, and what tag, a and b hold.
#[derive(Clone, Copy, Debug, PartialEq, Eq)]
pub struct KindRow {
    pub ops: u8,
    pub tag: Role,
    pub a: Role,
    pub b: Role,
}

const NOTHING: Role = Role::Unlisted;

const NUMBER: Role = Role::Number;

const LITERAL: Role = Role::Literal;

const TEXT: Role = Role::Text;

const FUNCTION: Role = Role::Function;

// A needed node, one that may be 0, and the head of a chain.
const EXPRESSION: Role = Role::Node(true, false, Class::Expression);

const MAYBE_EXPRESSION: Role = Role::Node(false, false, Class::Expression);

const EXPRESSIONS: Role = Role::Node(false, true, Class::Expression);

const EXPRESSIONS_NOT_EMPTY: Role = Role::Node(true, true, Class::Expression);

const COMPONENTS: Role = Role::Node(false, true, Class::Component);

const ARMS: Role = Role::Node(false, true, Class::Arm);

const ENTRIES: Role = Role::Node(false, true, Class::Entry);

const SCOPE: Role = Role::Node(true, false, Class::Scope);

const MAYBE_SCOPE: Role = Role::Node(false, false, Class::Scope);

const CONDITION: Role = Role::Node(true, false, Class::Condition);

const MAYBE_CONDITION: Role = Role::Node(false, false, Class::Condition);

const TARGET: Role = Role::Node(true, false, Class::Target);

// A line as the table below writes it.
fn row(ops: u8, tag: Role, a: Role, b: Role) -> KindRow
    ensures { result ≡ row_with ops tag a b }
{
    KindRow { ops, tag, a, b }
}

// The line of each kind; a kind that 01 does not list has no op.
#[tactic(auto, unfolding(crate::specs::Kinds::row_of, crate::specs::Kinds::table))]
pub fn row_of(kind: u8) -> KindRow
    ensures { result ≡ row_of kind }
{
    match kind {
        1 => row(1, NOTHING, EXPRESSIONS, MAYBE_EXPRESSION), // scope
        2 => row(11, NOTHING, EXPRESSION, EXPRESSION), // binary
        3 => row(1, NUMBER, EXPRESSION, NOTHING), // decl
        4 => row(1, NOTHING, TARGET, EXPRESSION), // set
        5 => row(6, NOTHING, TARGET, EXPRESSION), // assign
        6 => row(1, NOTHING, COMPONENTS, NOTHING), // template
        7 => row(1, NUMBER, NOTHING, NOTHING), // name
        8 => row(1, NOTHING, TARGET, NOTHING), // read
        9 => row(1, NOTHING, LITERAL, NOTHING), // value
        10 => row(1, NOTHING, ARMS, MAYBE_SCOPE), // branches
        11 => row(1, NUMBER, MAYBE_CONDITION, SCOPE), // loop
        12 => row(1, NUMBER, MAYBE_EXPRESSION, NOTHING), // break
        13 => row(1, NOTHING, EXPRESSIONS, NOTHING), // vec
        14 => row(1, NOTHING, EXPRESSIONS_NOT_EMPTY, NOTHING), // tuple
        15 => row(1, NOTHING, ENTRIES, NOTHING), // object
        16 => row(1, FUNCTION, EXPRESSIONS, NOTHING), // call
        17 => row(1, NOTHING, TEXT, NOTHING), // text
        18 => row(1, NOTHING, CONDITION, SCOPE), // arm
        19 => row(1, NOTHING, TEXT, EXPRESSION), // entry
        20 => row(2, NUMBER, EXPRESSION, NOTHING), // let condition
        21 => row(1, NUMBER, NOTHING, NOTHING), // target: a name
        22 => row(1, NOTHING, TARGET, TEXT), // target: a field
        23 => row(1, NOTHING, TARGET, NUMBER), // target: an index
        _ => row(0, NOTHING, NOTHING, NOTHING),
    }
}
