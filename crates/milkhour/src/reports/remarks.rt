//! What is written beside a report: warnings, and what would be lost without it.

use super::Account;
use super::data::Told;
use crate::trouble::Trouble;
use explanations::Report;
use milkhour_run::Status;
use milkhour_words::Format;
use proof_reports::{EquationReport, Fault};
use screens::{equations_screen, faults_screen};
use std::alloc::Global;

const AT_ODDS: &str =
    "milkhour: this explanation is at odds with the answer of step, whose status counts\n";

/// Whether a condition is shown as open before the one that `step` names, which is the first that its search leaves open, or none at all.
/// The status is `step`'s all the same.
fn disagrees(status: Status, report: &Report) -> bool {
    match status {
        Status::NotProved(number) => match report.numbers.first() {
            Some(first) => *first < number as u64,
            None => true,
        },
        _ => false,
    }
}

/// Whether a text of equations leaves something unsaid: that there are none, or that they went to a file.
fn is_quiet(account: &Account<'_>, report: &EquationReport) -> bool {
    account.options.format == Format::Text
        && (report.equations.is_empty() || account.options.output.is_some())
}

/// What is said of what is told: that it is at odds with the answer, which is a fault of this program; or what was found where
/// the report doesn't say it.
fn remark_on(alloc: Global, account: &Account<'_>, told: &Told) -> Result<Option<String>, Trouble> {
    match told {
        Told::Proof(report) if disagrees(account.answer.status, report) => {
            Ok(Some(String::from_str(alloc, AT_ODDS)?))
        }
        Told::Equations(report) if is_quiet(account, report) => {
            Ok(Some(equations_screen(alloc, report, account.remark_style)?))
        }
        _ => Ok(None),
    }
}

/// All that is said beside a report. A document has the warnings itself.
pub fn remark_of(
    alloc: Global,
    account: &Account<'_>,
    told: &Told,
    warnings: &[Fault],
) -> Result<Option<String>, Trouble> {
    if warnings.is_empty() || account.options.format == Format::Json {
        return remark_on(alloc, account, told);
    }
    let mut remark = faults_screen(alloc, warnings, account.remark_style)?;
    if let Some(more) = remark_on(alloc, account, told)? {
        remark.push_str(more.as_str())?;
    }
    Ok(Some(remark))
}
