//! What people write who come from other languages, and what is written here. Each table gives the words or bytes that are
//! found, and the help.

const LAST: &str = "a `;` stands between statements or items, and not behind the last";

const CHAIN: &str = "comparisons don't chain: write `0 <= x /\\ x <= 2`";

const AND: &str = "and is `/\\`";

const OR: &str = "or is `\\/`";

const NOT: &str = "not is `~`, and unequal is `!=`";

const COMMENT: &str = "a comment begins with `%`";

const AT_LEAST: &str = "at least is `>=`";

const AT_MOST: &str = "at most is `<=`";

const IMPLIES: &str = "implies is `->`";

const NO_JUMPS: &str = "there are no jumps";

const NO_QUANTIFIERS: &str = "there are no quantifiers";

const NO_DIVISION: &str = "there is no division: the language is linear";

/// What stands before a token at which a text breaks off, the token, and the help.
const PAIRS: [(&str, &str, &str); 14] = [
    ("=", "=", "equality is `=`, one sign"),
    ("=", ">", "implies is `->`, and at least is `>=`"),
    ("=", "<", AT_MOST),
    ("<", ">", "unequal is `!=`"),
    (
        "<",
        "->",
        "there is no `<->`: write `(b -> c) /\\ (c -> b)`",
    ),
    (
        "<=",
        ">",
        "there is no `<=>`: write `(b -> c) /\\ (c -> b)`",
    ),
    (";", "]", LAST),
    (";", "fi", LAST),
    (";", "coend", LAST),
    (";", "or", LAST),
    (";", ">>", LAST),
    (";", "else", LAST),
    ("-", "-", COMMENT),
    ("(", "*", COMMENT),
];

/// Tokens at which a text breaks off, whatever stands before them, and the help.
const WORDS: [(&str, &str); 19] = [
    ("and", AND),
    (
        "or",
        "or is `\\/`; `or` stands between the branches of a selection",
    ),
    ("not", NOT),
    ("mod", NO_DIVISION),
    ("div", NO_DIVISION),
    ("||", "or is `\\/`; `||` stands between processes"),
    ("int", "the type is `integer`"),
    ("bool", "the type is `boolean`"),
    (
        "od",
        "a loop has no end word: several statements stand in `[ ]`",
    ),
    ("end", "several statements stand in `[ ]`"),
    ("begin", "several statements stand in `[ ]`"),
    ("elif", "write `else if .. fi`"),
    ("for", "there is no `for`: write a `while`"),
    ("goto", NO_JUMPS),
    ("var", "variables are declared by `in`, `local` or `out`"),
    ("forall", NO_QUANTIFIERS),
    ("exists", NO_QUANTIFIERS),
    ("array", "there are no arrays"),
    ("[", "there are no arrays"),
];

/// Comparisons, which take no second one.
const COMPARISONS: [&str; 6] = ["=", "!=", "<", "<=", ">", ">="];

/// The help for two tokens that stand side by side.
pub(crate) fn help_for_pair(before: &str, found: &str) -> Option<&'static str> {
    for (first, second, help) in PAIRS {
        if first == before && second == found {
            return Some(help);
        }
    }
    None
}

/// The help for a token that is found.
fn help_for_word(found: &str) -> Option<&'static str> {
    for (word, help) in WORDS {
        if word == found {
            return Some(help);
        }
    }
    None
}

/// The help for a token that is found behind another.
pub(crate) fn help_behind(before: &str, found: &str) -> Option<&'static str> {
    match help_for_pair(before, found) {
        Some(help) => Some(help),
        None => if before == "goto" {
            Some(NO_JUMPS)
        } else {
            help_for_word(found)
        },
    }
}

/// The help for a comparison that is found.
pub(crate) fn help_for_comparison(found: &str) -> Option<&'static str> {
    for comparison in COMPARISONS {
        if comparison == found {
            return Some(CHAIN);
        }
    }
    None
}

/// Bytes with which no token begins, and the help.
const BYTES: [(&str, &str); 26] = [
    (
        "\u{feff}",
        "this is a byte order mark, which an editor doesn't show: save the text without it",
    ),
    (
        "\u{a0}",
        "this is a no-break space, which an editor shows as a blank: write a space",
    ),
    ("&", AND),
    ("|", OR),
    ("!", NOT),
    ("//", COMMENT),
    ("/*", COMMENT),
    ("#", COMMENT),
    ("\"", COMMENT),
    ("/", NO_DIVISION),
    ("\\", "and is `/\\`, or is `\\/`"),
    ("^", "there are no powers: the language is linear"),
    ("\u{2265}", AT_LEAST),
    ("\u{2264}", AT_MOST),
    ("\u{2260}", "unequal is `!=`"),
    ("\u{2227}", AND),
    ("\u{2228}", OR),
    ("\u{ac}", NOT),
    ("\u{2192}", IMPLIES),
    ("\u{21d2}", IMPLIES),
    ("\u{2194}", "write `(b -> c) /\\ (c -> b)`"),
    ("\u{21d4}", "write `(b -> c) /\\ (c -> b)`"),
    ("\u{2212}", "minus is `-`"),
    ("\u{2013}", "minus is `-`"),
    ("\u{d7}", "times is `*`"),
    ("\u{2200}", NO_QUANTIFIERS),
];

/// The help for bytes that begin no token.
pub(crate) fn help_for_bytes(rest: &[u8]) -> Option<&'static str> {
    for (bytes, help) in BYTES {
        if rest.starts_with(bytes.as_bytes()) {
            return Some(help);
        }
    }
    None
}

/// Keywords that a misspelt name may be.
pub(crate) const KEYWORDS: [&str; 32] = [
    "local",
    "where",
    "integer",
    "boolean",
    "skip",
    "await",
    "request",
    "release",
    "noncritical",
    "critical",
    "then",
    "else",
    "while",
    "loop",
    "forever",
    "select",
    "cobegin",
    "coend",
    "true",
    "false",
    "invariant",
    "waiting",
    "response",
    "leads",
    "within",
    "using",
    "chain",
    "ranked",
    "helper",
    "diagram",
    "terminal",
    "delay",
];
