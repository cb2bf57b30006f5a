//! Standard output.

use outside_ports::{Console, PrintEnd};

/// Standard output. It tells nothing of what was printed. Its count of shortages is 0 always, so it never answers
/// `NoMemory`.
#[derive(Drop)]
pub struct Terminal<'a, R> {
    rt: &'a R,
    faults: u64,
}

impl<'a, R> Terminal<'a, R> {
    pub fn new(rt: &'a R) -> Terminal<'a, R> {
        Terminal { rt, faults: 0 }
    }
}

impl<R: Print> Console for Terminal<'_, R> {
    ghost use Rattle.std.specs.Prelude.{None};

    ghost printed = { λ _. None };

    ghost faults = { λ t. t.faults };

    ghost shortages = { λ _. 0 };

    fn print(&mut self, bytes: &[u8]) -> PrintEnd {
        if self.rt.write_all(bytes).is_ok() {
            PrintEnd::Printed
        } else {
            self.faults = self.faults.saturating_add(1);
            PrintEnd::Failed
        }
    }
}
