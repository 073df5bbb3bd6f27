//! Hashes of formulas and of changes: only hints, since what is found by one is compared before it is used.

use hint_index::{folded, line_mixed, mixed};
use st_form::{Change, Form, Lin};

/// Each kind begins with a word of its own (digits of pi), so that no small number takes one kind's hash to another's.
const TRUE: u64 = 0x243F_6A88_85A3_08D3;

const FALSE: u64 = 0x1319_8A2E_0370_7344;

const ROW: u64 = 0xA409_3822_299F_31D0;

const EQUAL: u64 = 0x082E_FA98_EC4E_6C89;

const BOOLEAN: u64 = 0x4528_21E6_38D0_1377;

const LOCATED: u64 = 0xBE54_66CF_34E9_0C6C;

const NOT: u64 = 0xC0AC_29B7_C97C_50DD;

const ALL: u64 = 0x3F84_D5B5_B547_0917;

const ANY: u64 = 0x9216_D5D9_8979_FB1B;

const CHANGE: u64 = 0xD131_0BA6_98DF_B5AC;

/// The hash of a formula.
pub fn form_hash(form: &Form) -> u32 {
    folded(form_mixed(0, form))
}

/// A hash with a formula more.
#[cycle(mixing)]
pub fn form_mixed(hash: u64, form: &Form) -> u64 {
    match form {
        Form::True => mixed(hash, TRUE),
        Form::False => mixed(hash, FALSE),
        Form::Row(f) => line_mixed(mixed(hash, ROW), f),
        Form::Equal(f) => line_mixed(mixed(hash, EQUAL), f),
        Form::BoolVar(v) => mixed(mixed(hash, BOOLEAN), u64::from(*v)),
        Form::At(l) => mixed(mixed(hash, LOCATED), u64::from(*l)),
        Form::Not(f) => form_mixed(mixed(hash, NOT), f),
        Form::And(fs) => forms_mixed(mixed(hash, ALL), fs),
        Form::Or(fs) => forms_mixed(mixed(hash, ANY), fs),
    }
}

#[cycle(mixing)]
fn forms_mixed(hash: u64, forms: &[Form]) -> u64 {
    let mut hash = mixed(hash, forms.len() as u64);
    for form in forms {
        hash = form_mixed(hash, form);
    }
    hash
}

/// The hash of a change, before it is folded.
pub fn change_hash(change: &Change) -> u64 {
    let numbers = numbers_mixed(CHANGE, &change.numbers);
    let truths = truths_mixed(numbers, &change.truths);
    let leaves = locations_mixed(truths, &change.leaves);
    locations_mixed(leaves, &change.enters)
}

fn numbers_mixed(hash: u64, numbers: &[(u32, Lin)]) -> u64 {
    let mut hash = mixed(hash, numbers.len() as u64);
    for pair in numbers {
        hash = line_mixed(mixed(hash, u64::from(pair.0)), &pair.1);
    }
    hash
}

fn truths_mixed(hash: u64, truths: &[(u32, Form)]) -> u64 {
    let mut hash = mixed(hash, truths.len() as u64);
    for pair in truths {
        hash = form_mixed(mixed(hash, u64::from(pair.0)), &pair.1);
    }
    hash
}

fn locations_mixed(hash: u64, locations: &[u32]) -> u64 {
    let mut hash = mixed(hash, locations.len() as u64);
    for location in locations {
        hash = mixed(hash, u64::from(*location));
    }
    hash
}
