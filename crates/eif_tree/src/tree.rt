use eif_base::{Bytes, Name, Place};

/// A name where it stands.
#[derive(Drop)]
pub struct NameAt {
    pub place: Place,
    pub name: Name,
}

/// `old_name as new_name`.
#[derive(Drop)]
pub struct RenamePair {
    pub old_name: NameAt,
    pub new_name: NameAt,
}

/// Whether a type is marked as attached or detachable.
#[derive(Clone, Copy)]
pub enum Mark {
    Plain,
    Attached,
    Detachable,
}

/// An operator.
#[derive(Clone, Copy)]
pub enum Op {
    Plus,
    Minus,
    Times,
    Divide,
    Modulo,
    Power,
    Equal,
    NotEqual,
    Less,
    Greater,
    LessEqual,
    GreaterEqual,
    Not,
    And,
    AndThen,
    Or,
    OrElse,
    Xor,
    Implies,
}

/// A literal's value.
#[derive(Drop)]
pub enum Literal {
    Int(i64),
    Char(u8),
    Text(Bytes),
    Bool(bool),
}

/// A type as it is written. Its place is that of its mark, or of its name where it has no mark.
#[derive(Drop)]
pub struct TypeTree {
    pub place: Place,
    pub name_place: Place,
    pub mark: Mark,
    pub name: Name,
    pub actuals: Vec<TypeTree>,
}

/// An expression. Its place is that of its first token.
#[cycle(expr)]
#[derive(Drop)]
pub struct Expr {
    pub place: Place,
    pub kind: ExprKind,
}

/// What an expression is, by its form.
#[cycle(expr)]
#[derive(Drop)]
pub enum ExprKind {
    Lit(Literal),
    VoidValue,
    CurrentValue,
    ResultValue,
    /// `name (args)`, where the parentheses may be left out.
    Unqualified {
        name: Name,
        args: Vec<Expr>,
    },
    /// `Precursor {PARENT} (args)`, where the parent may be left out.
    Precursor {
        parent: Option<NameAt>,
        args: Vec<Expr>,
    },
    /// `target.name (args)`.
    Qualified {
        target: Box<Expr>,
        name: NameAt,
        args: Vec<Expr>,
    },
    /// `create {TYPE}.creator (args)`, where the creator may be left out.
    Creation {
        type_tree: TypeTree,
        creator: Option<NameAt>,
        args: Vec<Expr>,
    },
    /// `attached {TYPE} value as local`, or `{local: TYPE} value`.
    Test {
        type_tree: Option<TypeTree>,
        local: Option<NameAt>,
        value: Box<Expr>,
    },
    Paren(Box<Expr>),
    Unary {
        op: Op,
        value: Box<Expr>,
    },
    /// `left op right`, and where the operator stands.
    Binary {
        op: Op,
        op_place: Place,
        left: Box<Expr>,
        right: Box<Expr>,
    },
}

/// A claim in a contract, a loop or a check. Its tag is not kept.
#[derive(Drop)]
pub struct Assertion {
    pub value: Expr,
}

/// An instruction. A target `Result` has the name `result`.
#[cycle(instr)]
#[derive(Drop)]
pub enum Instr {
    Assign {
        target: NameAt,
        value: Expr,
    },
    Call {
        call: Expr,
    },
    /// `create {TYPE} target.creator (args)`. Its place is that of `create`.
    Create {
        place: Place,
        type_tree: Option<TypeTree>,
        target: NameAt,
        creator: Option<NameAt>,
        args: Vec<Expr>,
    },
    /// One branch for `if` and for each `elseif`, and what follows `else`.
    If {
        branches: Vec<Branch>,
        otherwise: Option<Vec<Instr>>,
    },
    Loop {
        start: Vec<Instr>,
        invariants: Vec<Assertion>,
        exit: Expr,
        body: Vec<Instr>,
        variant: Option<Expr>,
    },
    Check {
        claims: Vec<Assertion>,
    },
}

/// A condition, and what is done where it holds.
#[cycle(instr)]
#[derive(Drop)]
pub struct Branch {
    pub condition: Expr,
    pub body: Vec<Instr>,
}
