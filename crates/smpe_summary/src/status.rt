//! The status of a summary.
ghost use Rattle.std.specs.Prelude.{◌≡◌};
ghost use Rattle.std.specs.List.{list_any, list_all};
ghost use Rattle.smpe_summary.specs.Text.{is_refused, is_doubtful, is_taken, status_of};

use crate::values::{Group, Member, Summary};

// Whether it was not received.
fn is_refused(group: Group) -> bool
    ensures { result ≡ is_refused group }
{
    matches!(group, Group::NotReceived)
}

// Whether a reader has to look at it, although no line says FAILED.
fn is_doubtful(group: Group) -> bool
    ensures { result ≡ is_doubtful group }
{
    matches!(group, Group::NotDecided | Group::Deleted | Group::NoVer)
}

// Whether the command takes it as it should.
fn is_taken(group: Group) -> bool
    ensures { result ≡ is_taken group }
{
    matches!(group, Group::Applied | Group::Superseded)
}

// Whether none was received.
fn are_refused(members: &[Member]) -> bool
    ensures { result ≡ list_all (λ m. is_refused m.group) members.now }
{
    members.iter().all(|member| is_refused(member.group))
}

// Whether one was not received.
fn any_refused(members: &[Member]) -> bool
    ensures { result ≡ list_any (λ m. is_refused m.group) members.now }
{
    members.iter().any(|member| is_refused(member.group))
}

// Whether a reader has to look at one, although no line says FAILED.
fn any_doubtful(members: &[Member]) -> bool
    ensures { result ≡ list_any (λ m. is_doubtful m.group) members.now }
{
    members.iter().any(|member| is_doubtful(member.group))
}

// Whether the command takes one as it should.
fn any_taken(members: &[Member]) -> bool
    ensures { result ≡ list_any (λ m. is_taken m.group) members.now }
{
    members.iter().any(|member| is_taken(member.group))
}

impl Summary {
    /// 12 if no SYSMOD of the package was received, 8 if a SYSMOD fails or was not received, 4 if one is not decided,
    /// was deleted or has no `++VER` for the SREL, or if the command takes none, and otherwise 0.
    pub fn status(&self) -> u8
        ensures { result ≡ status_of self.now }
    {
        let members = self.members.as_slice();
        if are_refused(members) {
            12
        } else if self.has_failures || any_refused(members) {
            8
        } else if any_doubtful(members) || !any_taken(members) {
            4
        } else {
            0
        }
    }
}
