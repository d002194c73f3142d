//! The cases of an input, line by line.

use crate::case::Case;
use crate::named::NamedTexts;
use std::alloc::{AllocError, Global};

/// Texts by name, and the case that was begun.
#[derive(Drop)]
pub struct Script {
    texts: NamedTexts,
    case: Option<Case>,
}

impl Script {
    /// No texts, and no case begun.
    pub fn new(alloc: Global) -> Script {
        Script {
            texts: NamedTexts::new(alloc),
            case: None,
        }
    }

    /// Reads a line, and gives what is printed for it: the title of a case where it begins, the run
    /// where it ends, and the line itself where it is none of a case.
    pub fn read(&mut self, alloc: Global, line: &str) -> String {
        if line.is_empty() {
            return self.end(alloc);
        }
        if line.starts_with('#') {
            return String::new(alloc);
        }
        let (name, value) = line.split_once(' ').unwrap_or((line, ""));
        if name == "case" {
            self.case = Some(Case::new(alloc));
            return printed(alloc, titled(alloc, value));
        }
        match self.take(alloc, name, value) {
            Some(()) => String::new(alloc),
            None => printed(alloc, format!(in alloc; "unreadable: {line}\n")),
        }
    }

    /// Takes a line of this name into the case, or the text that it defines.
    fn take(&mut self, alloc: Global, name: &str, value: &str) -> Option<()> {
        if name == "define" {
            return self.texts.define(alloc, value);
        }
        let case = self.case.as_mut()?;
        case.take(alloc, &self.texts, name, value)
    }

    /// Ends the case that was begun, and gives how its run is told.
    pub fn end(&mut self, alloc: Global) -> String {
        match self.case.take() {
            Some(case) => printed(alloc, case.tell(alloc)),
            None => String::new(alloc),
        }
    }
}

/// The line of a title, behind a blank line.
fn titled(alloc: Global, title: &str) -> Result<String, AllocError> {
    format!(in alloc; "\ncase {title}\n")
}

/// What is printed: the text, or nothing where there was no memory for it, which the comparison with
/// the expected output finds.
fn printed(alloc: Global, text: Result<String, AllocError>) -> String {
    text.unwrap_or(String::new(alloc))
}
