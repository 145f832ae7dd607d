// The cases of a file: what each asks, and the records that it wants.
use std::fmt;

// One case: the words of its rule and family, its layout file and its export in hexadecimal digits, and the lines that it wants, one below the other.
#[derive(Clone, Copy)]
pub struct Case<'t> {
    pub name: &'t str,
    pub rule: &'t str,
    pub family: &'t str,
    pub layout: &'t str,
    pub export: &'t str,
    pub wanted: &'t str,
}

// The first line of some text is not the one that stands next in a case.
#[derive(Clone, Copy)]
pub struct Misplaced<'t> {
    // how a line should begin, and the one that stands there
    pub word: &'static str,
    pub line: &'t str,
}

impl fmt::Display for Misplaced<'_> {
    fn fmt<W: fmt::Write>(&self, f: &mut fmt::Formatter<W>) -> fmt::Result {
        let (word, line) = (self.word, self.line);
        write!(
            f,
            "a line '{word} ..' should stand where this one does: '{line}'"
        )
    }
}

// The first line of some text, and the lines below it.
fn cut_line(text: &str) -> (&str, &str) {
    text.split_once('\n').unwrap_or((text, ""))
}

// What stands behind a word in the first line of some text, and the lines below it; nothing may stand there.
fn take<'t>(text: &'t str, word: &'static str) -> Result<(&'t str, &'t str), Misplaced<'t>> {
    let (line, below) = cut_line(text);
    match line.strip_prefix(word) {
        Some("") => Ok(("", below)),
        Some(behind) => match behind.strip_prefix(' ') {
            Some(value) => Ok((value, below)),
            None => Err(Misplaced { word, line }),
        },
        None => Err(Misplaced { word, line }),
    }
}

// The case that some text is, without its line `end`.
pub fn case_in(text: &str) -> Result<Case<'_>, Misplaced<'_>> {
    let (name, text) = take(text, "case")?;
    let (rule, text) = take(text, "rule")?;
    let (family, text) = take(text, "family")?;
    let (layout, text) = take(text, "layout")?;
    let (export, text) = take(text, "export")?;
    let (_, wanted) = take(text, "expect")?;
    Ok(Case {
        name,
        rule,
        family,
        layout,
        export,
        wanted,
    })
}
