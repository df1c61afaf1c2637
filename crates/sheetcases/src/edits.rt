// The worked sheet with some texts of it changed.
use crate::outcome::{WORKED, print};
use blocks::Block;
use std::alloc::{AllocError, Global};
use std::io;

// A label, and one after the other a text of the sheet and what takes its first place there.
#[derive(Clone, Copy)]
pub struct Edit(
    pub &'static str,
    pub &'static [(&'static str, &'static str)],
);

// A text with the first place of another exchanged; nothing where that is not in it.
fn replaced(heap: Global, text: &str, old: &str, new: &str) -> Result<String, AllocError> {
    match text.split_once(old) {
        Some((front, rest)) => format!(in heap; "{front}{new}{rest}"),
        None => Ok(String::new(heap)),
    }
}

impl Edit {
    fn sheet(&self, heap: Global) -> Result<String, AllocError> {
        let mut sheet = String::from_str(heap, WORKED)?;
        for (old, new) in self.1 {
            sheet = replaced(heap, sheet.as_str(), *old, *new)?;
        }
        Ok(sheet)
    }
}

pub fn print_edits(
    rt: &impl Print,
    heap: Global,
    before: &Block,
    edits: &[Edit],
) -> io::Result<()> {
    for edit in edits {
        print(rt, before, edit.0, edit.sheet(heap)?.as_bytes())?;
    }
    Ok(())
}
