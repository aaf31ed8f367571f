//! What a page begins with: its title, and its style.

ghost use Rattle.std.specs.Prelude.{◌≡◌, ◌++◌, OnOk};
ghost use Rattle.reading_shows.specs.Sheet.{colours, narrow_shapes, opening, page_head, shapes, top};

use reading_texts::put_parts;
use std::alloc::AllocError;

// Puts the colours: light ones, dark ones for a browser that prefers them, and those for print.
fn put_colours(text: &mut Vec<u8>) -> Result<(), AllocError>
    ensures { OnOk result (text.new.items ≡ text.old.items ++ colours) }
{
    put_parts(
        text,
        &[
            b":root { color-scheme: light dark; --page: #fff; --text: #1f2328; --quiet: #59636e; --line: #d1d9e0; --bar: #2166c4; --track: #edf1f5 }\n",
            b"@media (prefers-color-scheme: dark) {\n",
            b":root { --page: #0f1318; --text: #e4e9ee; --quiet: #9aa5b1; --line: #343c46; --bar: #5fa3f5; --track: #1f262e } }\n",
            b"@media print {\n",
            b":root { color-scheme: light; --page: #fff; --text: #000; --quiet: #333; --line: #999; --bar: #444; --track: #fff }\n",
            b"svg, tr { break-inside: avoid; print-color-adjust: exact } h2, p { break-after: avoid } }\n",
        ],
    )
}

// Puts the positions and sizes.
fn put_shapes(text: &mut Vec<u8>) -> Result<(), AllocError>
    ensures { OnOk result (text.new.items ≡ text.old.items ++ shapes) }
{
    put_parts(
        text,
        &[
            b"body { max-width: 64rem; margin: 0 auto; padding: 1rem 1.25rem 3rem; background: var(--page); color: var(--text); font: 15px/1.5 system-ui, sans-serif }\n",
            b"h1 { font-size: 1.5rem } h2 { margin: 2.5rem 0 0; font-size: 1.15rem } h1, h2, p, a { overflow-wrap: anywhere } a { color: var(--bar) }\n",
            b"p, footer { margin: .25rem 0 .75rem; color: var(--quiet); white-space: pre-line } p:empty, footer:empty { display: none }\n",
            b"header p { font: 13px/1.5 ui-monospace, monospace; white-space: pre-wrap }\n",
            b"footer { margin-top: 2.5rem; border-top: 1px solid var(--line); padding-top: .75rem }\n",
            b"table { width: 100%; border-collapse: collapse; font-variant-numeric: tabular-nums }\n",
            b"th, td { padding: .1rem 0 .1rem .75rem; text-align: right; white-space: nowrap } th { color: var(--quiet); font-weight: normal }\n",
            b"th:first-child, td:first-child { padding-left: 0 } main th { min-width: 4.75rem } main th:first-child { min-width: 9.5rem } main td:nth-child(2) { width: 100% }\n",
            b"nav td { white-space: normal } nav th:nth-child(-n+2), nav td:nth-child(-n+2) { text-align: left }\n",
            b"svg { display: block; width: 100%; height: .9rem; background: var(--track) } rect { fill: var(--bar) }\n",
        ],
    )
}

// Puts those for a narrow screen.
fn put_narrow_shapes(text: &mut Vec<u8>) -> Result<(), AllocError>
    ensures { OnOk result (text.new.items ≡ text.old.items ++ narrow_shapes) }
{
    put_parts(
        text,
        &[
            b"@media (min-width: 48.01rem) { th { border-bottom: 1px solid var(--line) } }\n",
            b"@media (max-width: 48rem) {\n",
            b"body { padding: .75rem 1rem 2rem } table, tbody { display: block } th { display: none }\n",
            b"tr { display: flex; flex-wrap: wrap; justify-content: flex-end; gap: 0 .75rem; padding: .25rem 0 } td { padding: 0 }\n",
            b"td:first-child { margin-right: auto } main td:nth-child(2) { order: 1 } main td:nth-child(n+3) { min-width: 3.5rem }\n",
            b"nav tr { justify-content: flex-start; border-bottom: 1px solid var(--line) } nav td:first-child { width: 100% }\n",
            b"nav td:nth-child(3)::before { content: \"units \" } nav td:nth-child(4)::before { content: \"mean \" } nav td:nth-child(5)::before { content: \"50% \" }\n",
            b"nav td:nth-child(6)::before { content: \"99% \" } nav td:nth-child(7)::before { content: \"greatest \" } nav td::before { color: var(--quiet) } }\n",
        ],
    )
}

// Puts what comes before the style.
fn put_opening(text: &mut Vec<u8>, title: &[u8]) -> Result<(), AllocError>
    ensures { OnOk result (text.new.items ≡ text.old.items ++ opening title.now) }
{
    put_parts(
        text,
        &[
            b"<!DOCTYPE html>\n<html lang=\"en\">\n<head>\n<meta charset=\"utf-8\"/>\n",
            b"<meta name=\"viewport\" content=\"width=device-width, initial-scale=1\"/>\n<title>",
            title,
            b"</title>\n<style>\n",
        ],
    )
}

// Puts the title again, as the head of the page.
fn put_top(text: &mut Vec<u8>, title: &[u8]) -> Result<(), AllocError>
    ensures { OnOk result (text.new.items ≡ text.old.items ++ top title.now) }
{
    put_parts(
        text,
        &[b"</style>\n</head>\n<body>\n<h1>", title, b"</h1>\n"],
    )
}

// Puts all of it.
pub(crate) fn put_head(text: &mut Vec<u8>, title: &[u8]) -> Result<(), AllocError>
    ensures { OnOk result (text.new.items ≡ text.old.items ++ page_head title.now) }
{
    put_opening(text, title)?;
    put_colours(text)?;
    put_shapes(text)?;
    put_narrow_shapes(text)?;
    put_top(text, title)?;
    Ok(())
}
