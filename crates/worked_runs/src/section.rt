//! The sections of the text of cases.

use pb_base::Memory;
use std::alloc::Global;

/// A head with the lines behind it. A head is a line that begins with `=== `, and then opens a case, or with `--- `.
#[derive(Drop)]
pub struct Section<'a> {
    pub opens_case: bool,
    pub head: &'a str,
    pub lines: Vec<&'a str>,
}

/// The sections of a text, in its order. Lines before the first head belong to none, and neither does the end of the last
/// line. Lines that begin with `# ` are for the reader alone.
pub fn sections_of<'a>(alloc: Global, text: &'a str) -> Result<Vec<Section<'a>>, Memory> {
    let mut sections: Vec<Section<'a>> = Vec::new(alloc);
    for line in text.strip_suffix("\n").unwrap_or(text).split('\n') {
        if !line.starts_with("# ") {
            put_in(alloc, &mut sections, line)?;
        }
    }
    Ok(sections)
}

// Begins a section where the line is a head, and puts it into the last one where it isn't.
fn put_in<'a>(alloc: Global, sections: &mut Vec<Section<'a>>, line: &'a str) -> Result<(), Memory> {
    if let Some((opens_case, head)) = head_in(line) {
        let lines = Vec::new(alloc);
        sections.push(Section {
            opens_case,
            head,
            lines,
        })?;
    } else if let Some(last) = sections.last_mut() {
        last.lines.push(line)?;
    }
    Ok(())
}

fn head_in(line: &str) -> Option<(bool, &str)> {
    if let Some(name) = line.strip_prefix("=== ") {
        return Some((true, name));
    }
    let head = line.strip_prefix("--- ")?;
    Some((false, head))
}
