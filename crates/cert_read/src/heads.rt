//! The words with which lines and terms begin.
ghost use Rattle.std.specs.Prelude.{◌≡◌, IsTrue, false};
ghost use Rattle.std.specs.Str.{bytes_eq};
ghost use Rattle.cert_read.specs.Heads as spec;

/// The first word of a line.
#[derive(Clone, Copy, Debug, PartialEq, Eq)]
pub(crate) enum Rule {
    Term,
    False,
    Split,
    Rw,
    Keep,
    Part,
    Def,
    Subst,
    IteParts,
    Range,
    Bits,
    Bit,
    Mul,
    Add,
    Cmp,
    Eqc,
    Table,
    Rup,
}

/// The head of a term.
#[derive(Clone, Copy, Debug, PartialEq, Eq)]
pub(crate) enum Head {
    True,
    False,
    Bool,
    Int,
    Num,
    Sum,
    Scale,
    Le,
    Eq,
    Iff,
    Not,
    And,
    Or,
    Ite,
}

/// The kind of line that a word begins.
#[tactic(auto, unfolding(crate::specs::Heads::rule_of))]
pub(crate) fn rule_of(word: &[u8]) -> Option<Rule>
    ensures { result ≡ spec.rule_of word.now }
{
    if same(word, b".") {
        Some(Rule::Term)
    } else if same(word, b"false") {
        Some(Rule::False)
    } else if same(word, b"split") {
        Some(Rule::Split)
    } else if same(word, b"rw") {
        Some(Rule::Rw)
    } else if same(word, b"keep") {
        Some(Rule::Keep)
    } else if same(word, b"and") {
        Some(Rule::Part)
    } else if same(word, b"def") {
        Some(Rule::Def)
    } else if same(word, b"subst") {
        Some(Rule::Subst)
    } else {
        word_rule_of(word)
    }
}

// The kinds of lines on names, bounds and words, and on what follows from clauses.
#[tactic(auto, unfolding(crate::specs::Heads::word_rule_of))]
fn word_rule_of(word: &[u8]) -> Option<Rule>
    ensures { result ≡ spec.word_rule_of word.now }
{
    if same(word, b"ite") {
        Some(Rule::IteParts)
    } else if same(word, b"range") {
        Some(Rule::Range)
    } else if same(word, b"bits") {
        Some(Rule::Bits)
    } else if same(word, b"bit") {
        Some(Rule::Bit)
    } else if same(word, b"mul") {
        Some(Rule::Mul)
    } else if same(word, b"add") {
        Some(Rule::Add)
    } else if same(word, b"cmp") {
        Some(Rule::Cmp)
    } else if same(word, b"eqc") {
        Some(Rule::Eqc)
    } else if same(word, b"table") {
        Some(Rule::Table)
    } else if same(word, b"rup") {
        Some(Rule::Rup)
    } else {
        None
    }
}

/// The head that a word stands for in the line of a term.
#[tactic(auto, unfolding(crate::specs::Heads::head_of))]
pub(crate) fn head_of(word: &[u8]) -> Option<Head>
    ensures { result ≡ spec.head_of word.now }
{
    if same(word, b"true") {
        Some(Head::True)
    } else if same(word, b"false") {
        Some(Head::False)
    } else if same(word, b"bool") {
        Some(Head::Bool)
    } else if same(word, b"int") {
        Some(Head::Int)
    } else if same(word, b"num") {
        Some(Head::Num)
    } else if same(word, b"sum") {
        Some(Head::Sum)
    } else if same(word, b"mul") {
        Some(Head::Scale)
    } else {
        formula_head_of(word)
    }
}

// The heads of formulas over terms, and of choices.
#[tactic(auto, unfolding(crate::specs::Heads::formula_head_of))]
fn formula_head_of(word: &[u8]) -> Option<Head>
    ensures { result ≡ spec.formula_head_of word.now }
{
    if same(word, b"le") {
        Some(Head::Le)
    } else if same(word, b"eq") {
        Some(Head::Eq)
    } else if same(word, b"iff") {
        Some(Head::Iff)
    } else if same(word, b"not") {
        Some(Head::Not)
    } else if same(word, b"and") {
        Some(Head::And)
    } else if same(word, b"or") {
        Some(Head::Or)
    } else if same(word, b"ite") {
        Some(Head::Ite)
    } else {
        None
    }
}

/// Whether two texts are the same.
pub(crate) fn same(a: &[u8], b: &[u8]) -> bool
    ensures test { result ≡ bytes_eq a.now b.now }
    ensures yes { IsTrue result → a.now ≡ b.now }
    ensures no { result ≡ false → a.now ≡ b.now → ⊥ }
{
    a == b
}
