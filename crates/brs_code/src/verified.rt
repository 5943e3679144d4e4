//! Code that keeps the rule.
ghost use Rattle.std.specs.Prelude.{◌≡◌, ◌↔◌, ◌<◌, IsTrue, IsOk, IfOk, IfErr, All, length, slice_get};
ghost use Rattle.std.specs.Option.{option_map};
ghost use Rattle.brs_code.specs.Rule.{IsValid, IsFilePart, IsWholePart, heading_of};

use crate::rule::functions_keep_rule;
use crate::{Code, ScopeEntry, ScopeList};
use chan_values::Place;

/// Code that keeps the rule: whatever way a function takes, it finds the operands, the slots, the texts and the functions that its
/// instructions take, and it leaves by a return.
#[derive(Debug, Drop)]
pub struct Verified {
    pub code: Code,
    pub ghost valid: { ∥ IsValid code ∥₁ },
}

fn entries_are_there(entries: &ScopeList, functions: usize) -> bool
    ensures { IsTrue result ↔ All (λ entry. entry.function < functions) entries.now }
{
    for entry in entries.as_slice() {
        if entry.function as usize >= functions {
            return false;
        }
    }
    true
}

fn scopes_are_there(scopes: &[ScopeList], functions: usize) -> bool
    ensures { IsTrue result ↔ All (λ scope. All (λ entry. entry.function < functions) scope) scopes.now }
{
    for scope in scopes {
        if !entries_are_there(scope, functions) {
            return false;
        }
    }
    true
}

fn is_file_part(code: &Code) -> bool
    ensures { IsTrue result ↔ IsFilePart code.now }
{
    let anonymous = code.anonymous.len();
    functions_keep_rule(code.named.as_slice(), anonymous)
        && functions_keep_rule(code.anonymous.as_slice(), anonymous)
}

fn is_whole_part(code: &Code) -> bool
    ensures { IsTrue result ↔ IsWholePart code.now }
{
    !code.scopes.is_empty() && scopes_are_there(code.scopes.as_slice(), code.named.len())
}

fn is_valid(code: &Code) -> bool
    ensures { IsTrue result ↔ IsValid code.now }
{
    is_file_part(code) && is_whole_part(code)
}

/// The code as one that keeps the rule. Where it doesn't, the code is handed back as it was. Takes no memory.
pub fn verify(code: Code) -> Result<Verified, Code>
    ensures valid { IsOk result ↔ IsValid code }
    ensures kept { IfOk result (λ verified. verified.code ≡ code) }
    ensures handed_back { IfErr result (λ back. back ≡ code) }
{
    if is_valid(&code) {
        Ok(Verified { code })
    } else {
        Err(code)
    }
}

impl Verified {
    /// The place of the heading of the named function of this number: the line of its first word, in the file of its path. `None`
    /// exactly where there is no such function. Takes no memory.
    pub fn heading(&self, function: u32) -> Option<Place>
        ensures { result ≡ option_map heading_of (slice_get self.now.code.named function) }
    {
        match self.code.named.as_slice().get(function as usize) {
            Some(f) => Some(Place {
                path: f.path,
                line: f.line,
            }),
            None => None,
        }
    }
}
