//! What every page begins and ends with.

use crate::page::Page;
use st_memory::Memory;

/// The head up to the title. Its policy lets nothing be loaded and nothing run.
const HEAD: &str = r#"<!doctype html>
<html lang="en">
<head>
<meta charset="utf-8">
<meta name="viewport" content="width=device-width, initial-scale=1">
<meta http-equiv="Content-Security-Policy" content="default-src 'none'; style-src 'unsafe-inline'; img-src data:">
<title>"#;

/// The style, for light and dark, and from narrow to wide.
const STYLE: &str = r#"</title>
<style>
:root { color-scheme: light dark; --ink: #1b1b1b; --paper: #fff; --faint: #636363; --line: #d0d0d0; --good: #1b6e2e; --bad: #b3261e; --mark: #b3261e22; }
@media (prefers-color-scheme: dark) { :root { --ink: #e6e6e6; --paper: #16181b; --faint: #a6a6a6; --line: #3a3d42; --good: #7cc78d; --bad: #ff8a80; --mark: #ff8a8033; } }
body { margin: 0; font: 15px/1.5 system-ui, sans-serif; color: var(--ink); background: var(--paper); }
header { padding: 1em 1.25em; border-bottom: 3px solid var(--line); }
header.good { border-color: var(--good); }
header.bad { border-color: var(--bad); }
h1 { font-size: 1.2em; margin: 0; overflow-wrap: anywhere; }
h2 { font-size: 1.05em; margin: 1.5em 0 .5em; }
main { display: grid; grid-template-columns: minmax(0, 1.1fr) minmax(0, 1fr); gap: 0 2em; padding: 0 1.25em 2em; }
section:only-child { grid-column: 1 / -1; }
@media (max-width: 60em) { main { grid-template-columns: minmax(0, 1fr); } }
pre, code, table, summary { font-family: ui-monospace, monospace; font-size: 13px; }
pre { overflow: auto; margin: .5em 0; padding: .6em .8em; border: 1px solid var(--line); border-radius: 6px; }
pre .line { display: block; width: max-content; min-width: 100%; min-height: 1.5em; }
pre .line.spot { background: var(--mark); }
:target { outline: 2px solid var(--bad); outline-offset: -2px; }
.count { display: inline-block; min-width: 2.5em; padding-right: 1em; text-align: right; color: var(--faint); user-select: none; }
mark { color: inherit; background: var(--mark); border-bottom: 2px solid var(--bad); }
details { margin: .75em 0; padding: .4em .9em; border: 1px solid var(--line); border-radius: 6px; }
details pre { white-space: pre-wrap; overflow-wrap: anywhere; }
summary { cursor: pointer; overflow-wrap: anywhere; }
.scroll { overflow-x: auto; }
table { border-collapse: collapse; margin: .5em 0; }
th, td { padding: .15em .9em .15em 0; text-align: left; vertical-align: top; }
th { color: var(--faint); font-weight: normal; }
tr.changed td { font-weight: bold; }
.good { color: var(--good); }
.bad { color: var(--bad); }
.faint { color: var(--faint); }
a { color: inherit; }
img { max-width: 100%; background: #fff; border-radius: 6px; }
</style>
</head>
<body>
"#;

const END: &str = "</body>\n</html>\n";

/// Appends what stands before the body, with the page's title.
pub(crate) fn push_head(page: &mut Page, title: &str) -> Result<(), Memory> {
    page.markup(HEAD)?;
    page.text(title)?;
    page.markup(STYLE)
}

/// Appends the headline; `good` says whether it is good news.
pub(crate) fn push_headline(page: &mut Page, good: bool, text: &str) -> Result<(), Memory> {
    if good {
        page.inside("<header class=\"good\"><h1>", text, "</h1></header>\n")
    } else {
        page.inside("<header class=\"bad\"><h1>", text, "</h1></header>\n")
    }
}

/// Appends the end.
pub(crate) fn push_end(page: &mut Page) -> Result<(), Memory> {
    page.markup(END)
}
