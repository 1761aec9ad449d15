//! Checks that have names.

/// Checks, of which the first that failed is known.
#[derive(Clone, Copy)]
pub(crate) struct Checks {
    failed: Option<&'static str>,
}

impl Checks {
    pub(crate) fn new() -> Checks {
        Checks { failed: None }
    }

    /// Takes note of a check that fails.
    pub(crate) fn hold(&mut self, name: &'static str, holds: bool) {
        if !holds && self.failed.is_none() {
            self.failed = Some(name);
        }
    }

    /// The first check that failed.
    pub(crate) fn first_failed(self) -> Option<&'static str> {
        self.failed
    }
}
