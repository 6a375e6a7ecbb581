// The page that a program of cases writes.

ghost use Rattle.std.specs.Prelude.{◌≡◌, [], Some, None, IfOk, OnErr, string_bytes};
ghost use Rattle.cases.specs.Page.{Adds, AddsLine, AddsCase};

use std::alloc::{AllocError, Global};
use std::fmt::{Debug, Display, Write};
use std::marker::Model;

/// A text that grows. What adds to it gives no answer: where memory runs out the page is cut, and stays so.
///
/// Contracts see its text, and None once it is cut.
#[derive(Drop)]
pub struct Page {
    text: String,
    is_cut: bool,
}

impl Model for Page {
    ghost use Rattle.std.specs.Prelude.{Option, Some, None, List, ℕ, string_bytes, if◌then◌else◌};

    ghost Value = { Option (List ℕ) };

    ghost view = { λ p. (if p.is_cut then None else Some (string_bytes p.text)) };
}

impl Page {
    /// An empty page.
    pub fn new(alloc: Global) -> Page
        ensures { result ≡ Some [] }
    {
        Page {
            text: String::new(alloc),
            is_cut: false,
        }
    }

    /// Adds a text, or a number, or what a `format_args!` gives.
    pub fn put<T: Display + Drop>(&mut self, text: T)
        ensures { Adds (T.output text) self.old self.new }
    {
        if self.text.write(text).is_err() {
            self.is_cut = true;
        }
    }

    /// Adds a value as `{:?}` shows it.
    pub fn show<T: Debug + Drop>(&mut self, value: T)
        ensures { Adds (T.debug_output value) self.old self.new }
    {
        if write!(self.text, "{value:?}").is_err() {
            self.is_cut = true;
        }
    }

    /// Adds a text and the end of the line.
    pub fn line<T: Display + Drop>(&mut self, text: T)
        ensures { AddsLine (T.output text) self.old self.new }
    {
        self.put(text);
        self.put("\n");
    }

    /// Adds a call and its answer, as `{:?}` shows it, on a line: `CALL: ANSWER`.
    pub fn case<T: Debug + Drop>(&mut self, call: &str, answer: T)
        ensures { AddsCase call.now (T.debug_output answer) self.old self.new }
    {
        self.put(call);
        self.put(": ");
        self.show(answer);
        self.put("\n");
    }

    /// The whole text; an error once the page is cut.
    pub fn into_text(self) -> Result<String, AllocError>
        ensures ok { IfOk result (λ t. self ≡ Some (string_bytes t)) }
        ensures err { OnErr result (self ≡ None) }
    {
        if self.is_cut {
            Err(AllocError)
        } else {
            Ok(self.text)
        }
    }
}
