//! What a certificate comes to against a script.
ghost use Rattle.std.specs.Prelude.{◌≡◌, ◌≤◌, List, ℕ, length, All, IfOk};
ghost use Rattle.smt_words.specs.Command.{script_tree};
ghost use Rattle.tac_cert.specs.Accepts.{CertFits};
ghost use Rattle.check_front.specs.Named.{IsFormulaIn};
ghost use Rattle.check_front.specs.Texts.{Holds};
ghost use Rattle.check_front.specs.Judged as spec;

use crate::cutting::cut;
use crate::finding::{Finding, MOST_CERT, MOST_SCRIPT};
use crate::naming::session_at;
use crate::reading::Text;
use cert_check::{RuleWord, Verdict, check};
use cert_read::read_cert;
use qterm::Store;
use smt_command::commands;
use smt_words::{Script, ScriptError, What};
use sqlite_items::Items;
use std::alloc::{AllocError, Global};
use tac_cert::Cert;

/// What the texts of a script and of a certificate's source come to.
pub(crate) fn find(alloc: Global, script: &Text, source: &Text) -> Result<Finding, AllocError>
    ensures { (bytes cert : List ℕ) → Holds MOST_SCRIPT script.now bytes → Holds MOST_CERT source.now cert → IfOk result (spec.IsFound bytes cert) }
{
    match source {
        Text::Long => Ok(Finding::TooLong),
        Text::Whole(source) => find_in(alloc, script, source),
    }
}

/// What the text of a script and the bytes of a certificate's source come to.
fn find_in(alloc: Global, script: &Text, source: &[u8]) -> Result<Finding, AllocError>
    ensures { (bytes : List ℕ) → Holds MOST_SCRIPT script.now bytes → length source.now ≤ MOST_CERT → IfOk result (spec.IsFound bytes source.now) }
{
    let mut store = Store::new(alloc);
    match read_cert(alloc, &mut store, cut(source))? {
        Err(bad) => Ok(Finding::Malformed(bad.line)),
        Ok(cert) => find_against(alloc, &mut store, script, &cert),
    }
}

/// What a certificate comes to against the text of a script.
fn find_against(
    alloc: Global,
    store: &mut Store,
    script: &Text,
    cert: &Cert,
) -> Result<Finding, AllocError>
    requires { CertFits store.old cert.now }
    ensures { (bytes : List ℕ) → Holds MOST_SCRIPT script.now bytes → IfOk result (spec.IsJudgedLater store.old (spec.whole_script bytes) cert.now) }
{
    match script {
        Text::Long => {
            let script = Script {
                commands: Items::new(alloc),
                fault: Some(ScriptError {
                    what: What::TooLong,
                    place: 0,
                }),
            };
            judge(alloc, store, &script, cert)
        }
        Text::Whole(bytes) => {
            let script = commands(alloc, bytes, store, None)?;
            judge(alloc, store, &script, cert)
        }
    }
}

/// What a certificate comes to against a script that was read.
fn judge(
    alloc: Global,
    store: &mut Store,
    script: &Script,
    cert: &Cert,
) -> Result<Finding, AllocError>
    requires fits { CertFits store.old cert.now }
    requires within { All (λ placed. IsFormulaIn store.old placed.command) script.now.commands }
    ensures { IfOk result (spec.IsJudgedBy (script_tree store.old script.now) store.old cert.now) }
{
    match session_at(alloc, store, script, cert.check)? {
        Some(session) => {
            let verdict = check(alloc, store, session.asserts.as_slice(), cert)?;
            Ok(finding_of(verdict))
        }
        None => Ok(unnamed(script.fault)),
    }
}

/// What the checker's answer comes to.
fn finding_of(verdict: Verdict) -> Finding
    ensures { result ≡ spec.finding_of verdict }
{
    match verdict {
        Verdict::Accepted => Finding::Accepted,
        Verdict::Refused { step, rule } => Finding::Refused { step, rule },
    }
}

/// What a certificate comes to whose check isn't there.
fn unnamed(fault: Option<ScriptError>) -> Finding
    ensures { result ≡ spec.unnamed fault }
{
    match fault {
        Some(error) => Finding::Wrong(error),
        None => Finding::Refused {
            step: 0,
            rule: RuleWord::Head,
        },
    }
}
