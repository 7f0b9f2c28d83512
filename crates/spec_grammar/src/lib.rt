//! The grammar of expressions, types, statements, headers and blocks, as relations between words and trees, and the
//! plain functions that read them.
#![tactic(auto)]

ghost use Rattle.std.specs.Prelude.{◌≡◌, List, [], Some};
ghost use Rattle.spec_trees.specs.Expr.{Expr};
ghost use Rattle.spec_trees.specs.Stmt.{TypeExpr, Line};
ghost use Rattle.spec_trees.specs.Module.{Block};
ghost use Rattle.spec_grammar.specs.Words.{Word};
ghost use Rattle.spec_grammar.specs.Grammar.{IsExpr};
ghost use Rattle.spec_grammar.specs.Reading.{expr_of};
ghost use Rattle.spec_grammar.specs.Types.{IsType};
ghost use Rattle.spec_grammar.specs.TypeReading.{type_of};
ghost use Rattle.spec_grammar.specs.Headers.{IsLine};
ghost use Rattle.spec_grammar.specs.HeaderReading.{read_line};
ghost use Rattle.spec_grammar.specs.Blocks.{PlacedLine, IsModule};
ghost use Rattle.spec_grammar.specs.BlockReading.{module_of};

/// An operator, a delimiter or a keyword (Python 3.12 language reference, "Keywords", "Operators" and "Delimiters").
#[derive(Clone, Copy, Debug, PartialEq, Eq)]
pub enum Mark {
    Plus,
    Minus,
    Star,
    DoubleSlash,
    Percent,
    Ampersand,
    /// `|`
    Bar,
    Caret,
    Tilde,
    ShiftLeft,
    ShiftRight,
    Less,
    Greater,
    LessEqual,
    GreaterEqual,
    /// `==`
    Equal,
    NotEqual,
    OpenParen,
    CloseParen,
    OpenBracket,
    CloseBracket,
    OpenBrace,
    CloseBrace,
    Comma,
    Colon,
    Dot,
    /// `=`
    Assign,
    Arrow,
    PlusAssign,
    MinusAssign,
    StarAssign,
    DoubleSlashAssign,
    PercentAssign,
    AmpersandAssign,
    BarAssign,
    CaretAssign,
    ShiftLeftAssign,
    ShiftRightAssign,
    True,
    False,
    None,
    And,
    Assert,
    Break,
    Class,
    Continue,
    Def,
    Del,
    Elif,
    Else,
    Except,
    For,
    From,
    If,
    Import,
    In,
    Is,
    Not,
    Or,
    Pass,
    Raise,
    Return,
    Try,
    While,
    /// A keyword, operator or delimiter that no production uses.
    Reserved,
}

/// What is read from words is an expression that they spell.
pub fn read_is_an_expression()
    ensures { (s : List Word) (e : Expr) → expr_of s ≡ Some e → IsExpr s [] e }
{}

/// Each expression that words spell is read from them.
pub fn every_expression_is_read()
    ensures { (s : List Word) (e : Expr) → IsExpr s [] e → expr_of s ≡ Some e }
{}

/// Words spell at most one expression.
pub fn one_expression()
    ensures { (s : List Word) (d e : Expr) → IsExpr s [] d → IsExpr s [] e → d ≡ e }
{}

/// What is read from words is a type that they spell.
pub fn read_is_a_type()
    ensures { (s : List Word) (t : TypeExpr) → type_of s ≡ Some t → IsType s [] t }
{}

/// Each type that words spell is read from them.
pub fn every_type_is_read()
    ensures { (s : List Word) (t : TypeExpr) → IsType s [] t → type_of s ≡ Some t }
{}

/// Words spell at most one type.
pub fn one_type()
    ensures { (s : List Word) (t u : TypeExpr) → IsType s [] t → IsType s [] u → t ≡ u }
{}

/// What is read from the words of a line is a line that they spell.
pub fn read_is_a_line()
    ensures { (s : List Word) (l : Line) → read_line s ≡ Some l → IsLine s l }
{}

/// Each line that words spell is read from them.
pub fn every_line_is_read()
    ensures { (s : List Word) (l : Line) → IsLine s l → read_line s ≡ Some l }
{}

/// Words spell at most one line.
pub fn one_line()
    ensures { (s : List Word) (k l : Line) → IsLine s k → IsLine s l → k ≡ l }
{}

/// What is read from lines is the body of a module that they spell.
pub fn read_is_a_module()
    ensures { (s : List PlacedLine) (b : Block) → module_of s ≡ Some b → IsModule s b }
{}

/// Each body of a module that lines spell is read from them.
pub fn every_module_is_read()
    ensures { (s : List PlacedLine) (b : Block) → IsModule s b → module_of s ≡ Some b }
{}

/// Lines spell at most one body of a module.
pub fn one_module()
    ensures { (s : List PlacedLine) (b c : Block) → IsModule s b → IsModule s c → b ≡ c }
{}
