//! What the two texts come to.

use cert_check::RuleWord;
use smt_words::ScriptError;

/// The most bytes of a script.
pub const MOST_SCRIPT: usize = 67_108_864;

/// The most bytes of a certificate's source, those round the certificate among them.
pub const MOST_CERT: usize = 1_073_741_824;

/// What a certificate comes to against a script.
#[derive(Clone, Copy, Debug, PartialEq, Eq)]
pub enum Finding {
    /// The rules accept it against the assertions in force at the check that it names.
    Accepted,
    /// The first step in preorder that the rules refuse. It is step 0 where the first line names another number of assertions, or no
    /// check of the script.
    Refused { step: u32, rule: RuleWord },
    /// The script has a fault before that check.
    Wrong(ScriptError),
    /// The bytes stop being a certificate's text at this line.
    Malformed(u32),
    /// There are more bytes than a certificate's source may have.
    TooLong,
}
