//! The lines that tell findings.
ghost use Rattle.std.specs.Prelude.{◌≡◌, ◌++◌, IfOk, OnOk, decimal};
ghost use Rattle.check_front.specs.Lines as spec;

use crate::finding::Finding;
use answer_text::write_error;
use cert_check::RuleWord;
use itoa::Buffer;
use std::alloc::{AllocError, Global};

/// The line of a finding, where a script has these bytes.
#[tactic(auto, unfolding(crate::specs::Lines::finding_line))]
pub(crate) fn write_finding(
    alloc: Global,
    script: &[u8],
    finding: Finding,
) -> Result<Vec<u8>, AllocError>
    ensures { IfOk result (λ line. line.items ≡ spec.finding_line script.now finding) }
{
    let mut line = Vec::new(alloc);
    match finding {
        Finding::Accepted => line.extend_from_slice(b"accepted\n")?,
        Finding::TooLong => line.extend_from_slice(b"certificate too long\n")?,
        Finding::Wrong(error) => return write_error(alloc, script, error.what, error.place),
        Finding::Malformed(number) => {
            line.extend_from_slice(b"malformed line ")?;
            push_count(&mut line, number)?;
            line.extend_from_slice(b"\n")?;
        }
        Finding::Refused { step, rule } => {
            line.extend_from_slice(b"refused step ")?;
            push_count(&mut line, step)?;
            line.extend_from_slice(b": ")?;
            line.extend_from_slice(rule_text(rule))?;
            line.extend_from_slice(b"\n")?;
        }
    }
    Ok(line)
}

/// Adds a number.
fn push_count(line: &mut Vec<u8>, count: u32) -> Result<(), AllocError>
    ensures { OnOk result (line.new.items ≡ line.old.items ++ decimal count) }
{
    let mut buffer = Buffer::new();
    line.extend_from_slice(buffer.format(count).as_bytes())
}

/// The rule of a line, by the line's first word.
fn rule_text(rule: RuleWord) -> &'static [u8]
    ensures { result.now ≡ spec.rule_text rule }
{
    match rule {
        RuleWord::Head => b"head",
        RuleWord::False => b"false",
        RuleWord::Rw => b"rw",
        RuleWord::Keep => b"keep",
        RuleWord::Def => b"def",
        RuleWord::Subst => b"subst",
        RuleWord::Split => b"split",
        RuleWord::Ite => b"ite",
        RuleWord::Range => b"range",
        RuleWord::Bits => b"bits",
        RuleWord::Bit => b"bit",
        RuleWord::Add => b"add",
        RuleWord::Cmp => b"cmp",
        RuleWord::Eqc => b"eqc",
        RuleWord::Table => b"table",
        RuleWord::And => b"and",
        RuleWord::Mul => b"mul",
        RuleWord::Rup => b"rup",
    }
}
