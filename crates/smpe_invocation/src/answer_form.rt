//! The form of the answer of `check`, and the file of its certificate.
ghost use Rattle.std.specs.Prelude.{◌↔◌, Option, IfOk, IfErr, IsTrue, codes, option_map};
ghost use Rattle.std.specs.String.{string_bytes};
ghost use Rattle.terms.specs.Types.{Text};
ghost use Rattle.clap.specs.Words.{found_of, rows_of};
ghost use Rattle.smpe_invocation.specs.Answers.{Excludes};
ghost use Rattle.smpe_invocation.specs.Values.{AsksForApply, HasAnswer, HasCertificate, HasCheckForm, IsGiven};
ghost use Rattle.smpe_invocation.specs.declared.asked.CheckAnswer.{CheckAnswer};
ghost use Rattle.smpe_invocation.specs.declared.asked.CheckForm.{CheckForm};

use crate::asked::{CheckAnswer, CheckForm};
use crate::fault::ArgFault;
use crate::option_values::{copy_required_text, has_flag, lacks};
use clap::ArgMatches;
use std::alloc::Global;

/// Reads the form of the answer, and the name of the certificate's file.
pub(crate) fn read_check_answer(
    alloc: Global,
    found: &ArgMatches<'_>,
) -> Result<CheckAnswer, ArgFault>
    ensures ok { IfOk result (HasAnswer (rows_of (found_of found.now))) }
    ensures err { IfErr result (λ e. Excludes e ((answer : CheckAnswer)
        × HasAnswer (rows_of (found_of found.now)) answer)) }
{
    let form = read_check_form(found)?;
    let certificate = read_certificate(alloc, found)?;
    Ok(CheckAnswer { form, certificate })
}

// Whether the check's own APPLY is asked for: of a shop's own files, and without commands.
fn asks_for_apply(found: &ArgMatches<'_>) -> bool
    ensures { IsTrue result ↔ AsksForApply (rows_of (found_of found.now)) }
{
    lacks(found, "ptfin") && lacks(found, "cntl")
}

// Reads `--report` and `--json`. Returns `BadOperand` if both are given, and for JSON of anything but the check's own
// APPLY, or with ids to ask about.
fn read_check_form(found: &ArgMatches<'_>) -> Result<CheckForm, ArgFault>
    ensures ok { IfOk result (HasCheckForm (rows_of (found_of found.now))) }
    ensures err { IfErr result (λ e. Excludes e ((form : CheckForm)
        × HasCheckForm (rows_of (found_of found.now)) form)) }
{
    if has_flag(found, "json") {
        read_json_form(found)
    } else if has_flag(found, "report") || !asks_for_apply(found) {
        Ok(CheckForm::Report)
    } else {
        Ok(CheckForm::Summary)
    }
}

// The form if `--json` is given.
fn read_json_form(found: &ArgMatches<'_>) -> Result<CheckForm, ArgFault>
    requires { IsGiven (codes "json") (rows_of (found_of found.now)) }
    ensures ok { IfOk result (HasCheckForm (rows_of (found_of found.now))) }
    ensures err { IfErr result (λ e. Excludes e ((form : CheckForm)
        × HasCheckForm (rows_of (found_of found.now)) form)) }
{
    if asks_for_apply(found) && !has_flag(found, "report") && lacks(found, "why") {
        Ok(CheckForm::Json)
    } else {
        Err(ArgFault::BadOperand)
    }
}

// Reads the name of the certificate's file, if `--certificate` is given. Returns `BadOperand` if anything but the
// check's own APPLY is asked for.
fn read_certificate(alloc: Global, found: &ArgMatches<'_>) -> Result<Option<String>, ArgFault>
    ensures ok { IfOk result (λ name. HasCertificate (rows_of (found_of found.now)) (option_map string_bytes name)) }
    ensures err { IfErr result (λ e. Excludes e ((name : Option Text)
        × HasCertificate (rows_of (found_of found.now)) name)) }
{
    if lacks(found, "certificate") {
        return Ok(None);
    }
    if !asks_for_apply(found) {
        return Err(ArgFault::BadOperand);
    }
    let name = copy_required_text(alloc, found, "certificate")?;
    Ok(Some(name))
}
