// The kinds of lines, read from a line's first word: a declaration of a type, a node or a row.
ghost use Rattle.std.specs.Prelude.{◌≡◌};
ghost use Rattle.model.specs.Table.{type_of, node_kind, row_kind};
ghost use Rattle.kinds.specs.Kinds.{ty_said, node_said, row_said, HasKind};

// The types as numbers, as a declaration writes them. Among the numbers that are kept of nodes any other is no type.
pub const BOOL: u32 = 1;

pub const UINT: u32 = 2;

pub const POINTER: u32 = 3;

#[derive(Clone, Copy, PartialEq, Eq)]
pub enum Ty {
    Bool,
    Uint,
    Pointer,
}

#[derive(Clone, Copy, PartialEq, Eq)]
pub enum Node {
    Variable,
    UintConstant,
    BoolConstant,
    Cell,
    Plus,
    Minus,
    Less,
    AtMost,
    Equal,
    Conditional,
    Valid,
    ClassVariable,
    ReducedCell,
    ReducedValid,
    Unknown,
}

#[derive(Clone, Copy, PartialEq, Eq)]
pub enum Row {
    Skip,
    Assign,
    Store,
    Assert,
    Assume,
    Array,
    Loop,
    LoopEnd,
    ReducedStore,
    ReducedArray,
    ClassLoop,
    Procedure,
    Return,
    Call,
    Unknown,
}

#[derive(Clone, Copy, PartialEq, Eq)]
pub enum Kind {
    Declaration(Ty),
    Node(Node),
    Row(Row),
}

// The type that a declaration declares. Any number but 1 and 2 reads as a pointer; check 5 refuses the other ones.
impl From<u32> for Ty {
    #[tactic(auto, unfolding(model::specs::Table::type_of))]
    fn from(word: u32) -> Ty
        ensures { ty_said result ≡ type_of word }
    {
        match word {
            1 => Ty::Bool,
            2 => Ty::Uint,
            _ => Ty::Pointer,
        }
    }
}

impl From<u32> for Node {
    #[tactic(auto, unfolding(model::specs::Table::node_kind))]
    fn from(word: u32) -> Node
        ensures { node_said result ≡ node_kind word }
    {
        match word {
            16 => Node::Variable,
            17 => Node::UintConstant,
            18 => Node::BoolConstant,
            19 => Node::Cell,
            20 => Node::Plus,
            21 => Node::Minus,
            22 => Node::Less,
            23 => Node::AtMost,
            24 => Node::Equal,
            25 => Node::Conditional,
            26 => Node::Valid,
            27 => Node::ClassVariable,
            28 => Node::ReducedCell,
            29 => Node::ReducedValid,
            _ => Node::Unknown,
        }
    }
}

impl From<u32> for Row {
    #[tactic(auto, unfolding(model::specs::Table::row_kind))]
    fn from(word: u32) -> Row
        ensures { row_said result ≡ row_kind word }
    {
        match word {
            32 => Row::Skip,
            33 => Row::Assign,
            34 => Row::Store,
            35 => Row::Assert,
            36 => Row::Assume,
            37 => Row::Array,
            38 => Row::Loop,
            39 => Row::LoopEnd,
            40 => Row::ReducedStore,
            41 => Row::ReducedArray,
            42 => Row::ClassLoop,
            43 => Row::Procedure,
            44 => Row::Return,
            45 => Row::Call,
            _ => Row::Unknown,
        }
    }
}

impl From<u32> for Kind {
    fn from(word: u32) -> Kind
        ensures { HasKind result word }
    {
        if word < 16 {
            return Kind::Declaration(Ty::from(word));
        }
        if word < 32 {
            return Kind::Node(Node::from(word));
        }
        Kind::Row(Row::from(word))
    }
}
