// What each kind of line asks of its operands, their types and their marks, and how it nests.
ghost use Rattle.std.specs.Prelude.{◌≡◌, ℕ};
ghost use Rattle.model.specs.Table.{Ty as TyOf};
ghost use Rattle.model.specs.Table.{row_kind, nest_of, opens_procedure};
ghost use Rattle.model.specs.Accepted.{known, there, ty_number, type_by, node_suits, row_suits};
ghost use Rattle.kinds.specs.Kinds.{machine_of, sort_number, sort_said, roles_of, roles_said, role_said, node_said, row_said, nest_said};
ghost use Rattle.kinds.specs.Kinds.{value_suits, of_operands, typed_by, suits_mark};
ghost use Rattle.kinds.specs.Code.{node_typing, row_typing, typed_case, typed_numbers, node_result, result_by};

use crate::line_kind::{BOOL, Kind, Node, POINTER, Row, UINT};

// A line's sort, by its kind: declarations stand before nodes, and nodes before rows.
#[derive(Clone, Copy, PartialEq, Eq, PartialOrd, Ord)]
pub enum Sort {
    Declaration,
    Node,
    Row,
}

// What an operand is: unused, so that it is 0; a flag, 0 or 1; any number; a variable; or a node.
#[derive(Clone, Copy, PartialEq, Eq)]
pub enum Role {
    Unused,
    Flag,
    Number,
    Variable,
    Node,
}

// The roles of a line's operands.
#[derive(Clone, Copy)]
pub struct Roles {
    pub a: Role,
    pub b: Role,
    pub c: Role,
}

// Whether a row opens a loop, closes one, or neither.
#[derive(Clone, Copy, PartialEq, Eq)]
pub enum Nest {
    Opens,
    Closes,
    Neither,
}

// Whether a plain or a reduced table may have the kind. The kinds stand as words here, in ranges, as in the definition: by name they would be a
// list of forty.
#[tactic(auto, unfolding(model::specs::Accepted::known))]
pub fn is_known(reduced: bool, k: u32) -> bool
    ensures { result ≡ known (machine_of reduced) k }
{
    if reduced {
        return ((1..=3).contains(&k) | (16..=29).contains(&k) | (32..=45).contains(&k))
            & !((k == 19) | (k == 26) | (k == 34));
    }
    (1..=3).contains(&k) | (16..=26).contains(&k) | (32..=39).contains(&k) | (43..=45).contains(&k)
}

pub fn sort_of(kind: u32) -> Sort
    ensures { sort_said result ≡ sort_number kind }
{
    match Kind::from(kind) {
        Kind::Declaration(_) => Sort::Declaration,
        Kind::Node(_) => Sort::Node,
        Kind::Row(_) => Sort::Row,
    }
}

// The roles of a, b and c, by a line's kind. Operand a of a declaration is its mark, which a bool has not; 0 and 4 to 15 read as a pointer. The locals
// of a procedure are a stretch of variables, tested apart, and the number of a procedure is neither a variable nor a node.
// It is a table and no match, since the kinds of lines come in an order that no processor foresees; and a static, since a const is put together anew
// where it is read.
static ROLES: [(Role, Role, Role); 46] = [
    (Role::Flag, Role::Unused, Role::Unused),
    (Role::Unused, Role::Unused, Role::Unused), // 1 bool
    (Role::Flag, Role::Unused, Role::Unused), // 2 uint
    (Role::Flag, Role::Unused, Role::Unused), // 3 pointer
    (Role::Flag, Role::Unused, Role::Unused),
    (Role::Flag, Role::Unused, Role::Unused),
    (Role::Flag, Role::Unused, Role::Unused),
    (Role::Flag, Role::Unused, Role::Unused),
    (Role::Flag, Role::Unused, Role::Unused),
    (Role::Flag, Role::Unused, Role::Unused),
    (Role::Flag, Role::Unused, Role::Unused),
    (Role::Flag, Role::Unused, Role::Unused),
    (Role::Flag, Role::Unused, Role::Unused),
    (Role::Flag, Role::Unused, Role::Unused),
    (Role::Flag, Role::Unused, Role::Unused),
    (Role::Flag, Role::Unused, Role::Unused),
    (Role::Variable, Role::Unused, Role::Unused), // 16 variable
    (Role::Number, Role::Unused, Role::Unused), // 17 uint constant
    (Role::Flag, Role::Unused, Role::Unused), // 18 bool constant
    (Role::Node, Role::Unused, Role::Unused), // 19 cell
    (Role::Node, Role::Node, Role::Unused), // 20 +
    (Role::Node, Role::Node, Role::Unused), // 21 -
    (Role::Node, Role::Node, Role::Unused), // 22 <
    (Role::Node, Role::Node, Role::Unused), // 23 <=
    (Role::Node, Role::Node, Role::Unused), // 24 =
    (Role::Node, Role::Node, Role::Node), // 25 if
    (Role::Node, Role::Unused, Role::Unused), // 26 valid
    (Role::Variable, Role::Unused, Role::Unused), // 27 class variable
    (Role::Node, Role::Unused, Role::Unused), // 28 reduced cell
    (Role::Node, Role::Unused, Role::Unused), // 29 reduced valid
    (Role::Unused, Role::Unused, Role::Unused),
    (Role::Unused, Role::Unused, Role::Unused),
    (Role::Unused, Role::Unused, Role::Unused), // 32 skip
    (Role::Variable, Role::Node, Role::Unused), // 33 assign
    (Role::Node, Role::Node, Role::Unused), // 34 store
    (Role::Node, Role::Unused, Role::Unused), // 35 assert
    (Role::Node, Role::Unused, Role::Unused), // 36 assume
    (Role::Variable, Role::Node, Role::Unused), // 37 array
    (Role::Variable, Role::Node, Role::Node), // 38 loop
    (Role::Unused, Role::Unused, Role::Unused), // 39 end of loop
    (Role::Node, Role::Node, Role::Unused), // 40 reduced store
    (Role::Variable, Role::Node, Role::Unused), // 41 reduced array
    (Role::Variable, Role::Node, Role::Node), // 42 class loop
    (Role::Number, Role::Number, Role::Unused), // 43 procedure
    (Role::Node, Role::Unused, Role::Unused), // 44 return
    (Role::Number, Role::Node, Role::Variable), // 45 call
];

pub fn roles_of(kind: u32) -> Roles
    ensures { roles_said result ≡ roles_of kind }
{
    let k = kind as usize;
    let (a, b, c) = if k < ROLES.len() {
        ROLES[k]
    } else {
        (Role::Unused, Role::Unused, Role::Unused)
    };
    Roles { a, b, c }
}

// An unused operand is 0, a flag at most 1. It compares, as `is_there` does: a match over the role would be a jump that no processor foresees.
pub fn suits(role: Role, x: u32) -> bool
    ensures { result ≡ value_suits (role_said role) x }
{
    ((role != Role::Unused) | (x == 0)) & ((role != Role::Flag) | (x <= 1))
}

// A variable is one of `vars`, a node is below `bound`.
pub fn is_there(role: Role, vars: usize, bound: usize, x: u32) -> bool
    ensures { result ≡ there (role_said role) vars bound x }
{
    let i = x as usize;
    ((role != Role::Variable) | (i < vars)) & ((role != Role::Node) | (i < bound))
}

// Whether the numbers of the nodes a, b and c are those of types that the node asks.
#[tactic(auto, unfolding(crate::specs::Code::typed_case))]
fn node_fits(node: Node, a: u32, b: u32, c: u32) -> bool
    ensures { (v u : ℕ) → result ≡ typed_case (node_typing (node_said node)) v u a b c }
{
    match node {
        Node::Variable | Node::UintConstant | Node::BoolConstant | Node::ClassVariable => true,
        Node::Cell | Node::Valid | Node::ReducedCell | Node::ReducedValid => a == POINTER,
        Node::Plus | Node::Minus => (a != BOOL) & (b == UINT),
        Node::Less | Node::AtMost | Node::Equal => (a == UINT) & (b == UINT),
        Node::Conditional => (a == BOOL) & (b == c),
        Node::Unknown => false,
    }
}

// Whether the numbers of the variables a (v) and c (u) and of the nodes a, b and c are those of types that the row asks. The locals of a procedure
// are not among them.
#[tactic(auto, unfolding(crate::specs::Code::typed_case))]
fn row_fits(row: Row, v: u32, u: u32, a: u32, b: u32, c: u32) -> bool
    ensures { result ≡ typed_case (row_typing (row_said row)) v u a b c }
{
    match row {
        Row::Skip | Row::LoopEnd | Row::Procedure => true,
        Row::Assign => b == v,
        Row::Store | Row::ReducedStore => (a == POINTER) & (b == UINT),
        Row::Assert | Row::Assume => a == BOOL,
        Row::Array | Row::ReducedArray => (v == POINTER) & (b == UINT),
        Row::Loop | Row::ClassLoop => (v == UINT) & ((b == UINT) & (c == UINT)),
        Row::Return => a == UINT,
        Row::Call => (b == UINT) & (u == UINT),
        Row::Unknown => false,
    }
}

// The same of a line, by its kind. Any numbers may be asked for: 0, say, for a node that there is none of.
pub fn is_typed(kind: u32, v: u32, u: u32, a: u32, b: u32, c: u32) -> bool
    ensures numbers { result ≡ typed_numbers kind v u a b c }
    // Of the numbers of types it is what the model asks of the types.
    ensures types { (tv tu ta tb tc : TyOf) → v ≡ ty_number tv → u ≡ ty_number tu → a ≡ ty_number ta → b ≡ ty_number tb → c ≡ ty_number tc
        → result ≡ typed_by kind tv tu ta tb tc }
{
    match Kind::from(kind) {
        Kind::Declaration(_) => false,
        Kind::Node(node) => node_fits(node, a, b, c),
        Kind::Row(row) => row_fits(row, v, u, a, b, c),
    }
}

// The number of the type that a node gives, from those of the variable a (v) and of the nodes a and b, which may be any numbers.
pub fn result_type(node: Node, v: u32, a: u32, b: u32) -> u32
    ensures numbers { result ≡ result_by (node_result (node_said node)) v a b }
    // Of the numbers of types it is that of the type which the model gives.
    ensures types { (tv ta tb : TyOf) → v ≡ ty_number tv → a ≡ ty_number ta → b ≡ ty_number tb
        → result ≡ ty_number (type_by (of_operands tv tv tv) (node_said node) 0 1 (of_operands ta tb tb)) }
{
    match node {
        Node::Variable | Node::ClassVariable => v,
        Node::UintConstant | Node::Cell | Node::ReducedCell => UINT,
        Node::Plus | Node::Minus => a,
        Node::Conditional => b,
        Node::BoolConstant
        | Node::Less
        | Node::AtMost
        | Node::Equal
        | Node::Valid
        | Node::ReducedValid
        | Node::Unknown => BOOL,
    }
}

fn node_suits(node: Node, reduced: bool, u: bool) -> bool
    ensures { result ≡ node_suits reduced (node_said node) u }
{
    match node {
        Node::Variable => !(reduced & u),
        Node::ClassVariable => u,
        _ => true,
    }
}

fn row_suits(row: Row, reduced: bool, u: bool, p: bool) -> bool
    ensures { result ≡ row_suits reduced (row_said row) u p }
{
    match row {
        Row::Assign => !u,
        Row::Array => !(reduced & p),
        Row::Loop => !(reduced & u),
        Row::ReducedArray => p,
        Row::ClassLoop => u,
        _ => true,
    }
}

// Whether the mark of the variable that a line names suits its kind: it is a marked uint (u), or a marked pointer (p).
#[tactic(auto, unfolding(crate::specs::Kinds::suits_mark))]
pub fn suits_mark(kind: u32, reduced: bool, u: bool, p: bool) -> bool
    ensures { result ≡ suits_mark kind reduced u p }
{
    match Kind::from(kind) {
        Kind::Declaration(_) => true,
        Kind::Node(node) => node_suits(node, reduced, u),
        Kind::Row(row) => row_suits(row, reduced, u, p),
    }
}

pub fn nest_of(kind: u32) -> Nest
    ensures { nest_said result ≡ nest_of (row_kind kind) }
{
    match Row::from(kind) {
        Row::Loop | Row::ClassLoop => Nest::Opens,
        Row::LoopEnd => Nest::Closes,
        _ => Nest::Neither,
    }
}

// Whether a line opens a procedure.
pub fn opens_procedure(kind: u32) -> bool
    ensures { result ≡ opens_procedure (row_kind kind) }
{
    Row::from(kind) == Row::Procedure
}
