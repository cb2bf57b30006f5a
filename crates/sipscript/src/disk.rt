//! Files of the file system.
ghost use Rattle.std.specs.Prelude.{◌≤◌, IfOk, vec_len};

use outside_ports::{FileFault, Files};
use std::alloc::Global;
use std::fs;
use std::io::Read;

/// The files of the file system, by path. It tells nothing of what they hold. Its count of faults is one for all names.
#[derive(Drop)]
pub struct Disk<'a, R> {
    rt: &'a R,
    faults: u64,
}

impl<'a, R> Disk<'a, R> {
    pub fn new(rt: &'a R) -> Disk<'a, R> {
        Disk { rt, faults: 0 }
    }
}

/// The whole file, of at most `limit` bytes.
fn read_limited<R: std::rt::Files>(
    rt: &R,
    alloc: Global,
    name: &str,
    limit: usize,
) -> Result<Vec<u8>, FileFault>
    ensures { IfOk result (λ bytes. vec_len bytes ≤ limit) }
{
    let Ok(mut file) = fs::open(rt, name) else {
        return Err(FileFault::Failed);
    };
    let mut bytes = Vec::new(alloc);
    let mut chunk = [0u8; 4096];
    for _ in 0..u64::MAX {
        let Ok(len) = file.read(&mut chunk) else {
            return Err(FileFault::Failed);
        };
        if len == 0 {
            return Ok(bytes);
        }
        if limit - bytes.len() < len {
            return Err(FileFault::TooLong);
        }
        if bytes.extend_from_slice(&chunk[..len]).is_err() {
            return Err(FileFault::NoMemory);
        }
    }
    Err(FileFault::Failed)
}

impl<R: std::rt::Files> Files for Disk<'_, R> {
    ghost use Rattle.std.specs.Prelude.{None};

    ghost folder = { λ _. None };

    ghost faults = { λ d _. d.faults };

    fn read(&mut self, alloc: Global, name: &str, limit: usize) -> Result<Vec<u8>, FileFault> {
        let read = read_limited(self.rt, alloc, name, limit);
        if let Err(FileFault::Failed) = read {
            self.faults = self.faults.saturating_add(1);
        }
        read
    }
}
